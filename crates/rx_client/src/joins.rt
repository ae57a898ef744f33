//! Numbers in texts, and texts that are joined.

ghost use Rattle.std.specs.Prelude.{◌≡◌, ◌++◌, OnOk, string_bytes};
ghost use Rattle.std.specs.List.{flat_map};
ghost use Rattle.rx_client.specs.FailureTexts.{joined};

use itoa::{Buffer, Integer};
use rx_base::{NoMemory, Text};

/// Adds a number.
pub(crate) fn push_number<I: Integer>(out: &mut String, number: I) -> Result<(), NoMemory>
    ensures { OnOk result (string_bytes out.new ≡ string_bytes out.old ++ I.text number) }
{
    let mut buffer = Buffer::new();
    out.push_str(buffer.format(number))
}

/// Adds a text and a number.
pub(crate) fn push_with_number<I: Integer>(
    out: &mut String,
    text: &str,
    number: I,
) -> Result<(), NoMemory>
    ensures { OnOk result
        (string_bytes out.new ≡ string_bytes out.old ++ (text.now ++ I.text number)) }
{
    out.push_str(text)?;
    push_number(out, number)
}

/// Adds texts, each behind another one.
fn push_behind_each(out: &mut String, between: &str, texts: &[Text]) -> Result<(), NoMemory>
    ensures { OnOk result (string_bytes out.new
        ≡ string_bytes out.old ++ flat_map (λ other. between.now ++ other) texts.now) }
{
    for text in texts {
        out.push_str(between)?;
        out.push_str(text.as_str())?;
    }
    Ok(())
}

/// Adds texts, with another one between each two.
pub(crate) fn push_joined(out: &mut String, between: &str, texts: &[Text]) -> Result<(), NoMemory>
    ensures { OnOk result
        (string_bytes out.new ≡ string_bytes out.old ++ joined between.now texts.now) }
{
    match texts.split_first() {
        Some((text, others)) => {
            out.push_str(text.as_str())?;
            push_behind_each(out, between, others)
        }
        None => Ok(()),
    }
}
