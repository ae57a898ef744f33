//! Versions of the Remote Execution API as text in a reply: written.

ghost use Rattle.std.specs.Prelude.{◌≡◌, ◌++◌, IfOk, OnOk, string_bytes};
ghost use Rattle.std.specs.Fmt.{signed_decimal};
ghost use Rattle.rx_session.specs.Versions.{dotted, version_text, versions_text};

use itoa::Buffer;
use rx_base::{NoMemory, Text};
use rx_world::SemVer;
use std::alloc::Global;

fn push_decimal(out: &mut String, number: i32) -> Result<(), NoMemory>
    ensures { OnOk result
        (string_bytes out.new ≡ string_bytes out.old ++ signed_decimal number) }
{
    let mut buffer = Buffer::new();
    out.push_str(buffer.format(number))
}

/// A number in decimal, and a dot.
#[tactic(auto, unfolding(crate::specs::Versions::dotted))]
fn push_dotted(out: &mut String, number: i32) -> Result<(), NoMemory>
    ensures { OnOk result (string_bytes out.new ≡ string_bytes out.old ++ dotted number) }
{
    push_decimal(out, number)?;
    out.push_str(".")
}

/// A version in decimal, as `2.0.0`.
#[tactic(auto, unfolding(crate::specs::Versions::version_text))]
fn push_version(out: &mut String, version: &SemVer) -> Result<(), NoMemory>
    ensures { OnOk result
        (string_bytes out.new ≡ string_bytes out.old ++ version_text version.now) }
{
    push_dotted(out, version.major)?;
    push_dotted(out, version.minor)?;
    push_decimal(out, version.patch)
}

/// The lowest and the highest version that a farm serves, as `2.0.0-2.1.0`.
pub(crate) fn versions_text(alloc: Global, low: &SemVer, high: &SemVer) -> Result<Text, NoMemory>
    ensures { IfOk result (λ text. text ≡ versions_text low.now high.now) }
{
    let mut text = String::new(alloc);
    push_version(&mut text, low)?;
    text.push_str("-")?;
    push_version(&mut text, high)?;
    Ok(Text::from_string(text))
}
