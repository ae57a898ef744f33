//! Settings of the configuration file: lines `name=value`.

ghost use Rattle.std.specs.Prelude.{◌≡◌, []};
ghost use Rattle.rx_base.specs.Results.{Gives};
ghost use Rattle.rx_wrap.specs.ConfigFile.{flag_in_file, is_blank, is_skipped, lines, settings_in_lines, with_line};
ghost use Rattle.rx_wrap.specs.declared.usage_fault.UsageFault.TheVariants.{NoMemory};

use crate::flags::Flag;
use crate::settings::Setting;
use crate::strips::begins;
use crate::usage_fault::UsageFault;
use rx_base::Text;
use std::alloc::Global;

/// Whether a line has white space alone.
fn is_blank(line: &str) -> bool
    ensures { result ≡ is_blank line.now }
{
    line.as_bytes()
        .iter()
        .all(|byte| byte.is_ascii_whitespace())
}

/// Whether a line is blank or a comment.
fn is_skipped(line: &str) -> bool
    ensures { result ≡ is_skipped line.now }
{
    is_blank(line) || begins(line, b"#")
}

/// The flag of a name, but not the one that names the file itself.
fn flag_in_file(name: &str) -> Option<Flag>
    ensures { result ≡ flag_in_file name.now }
{
    let flag = Flag::named(name)?;
    if flag.is(Flag::Config) {
        return None;
    }
    Some(flag)
}

/// The settings with one more line.
#[tactic(auto, unfolding(crate::specs::ConfigFile::with_line))]
fn with_line<'a>(
    alloc: Global,
    mut settings: Vec<Setting<'a>>,
    line: &'a str,
) -> Result<Vec<Setting<'a>>, UsageFault>
    ensures { Gives NoMemory (λ s. s.items) result (with_line settings.entry.items line.now) }
{
    if is_skipped(line) {
        return Ok(settings);
    }
    let Some((name, value)) = line.split_once('=') else {
        return Err(UsageFault::Word(Text::copy_of(alloc, line)?));
    };
    if let Some(flag) = flag_in_file(name) {
        settings.push(Setting {
            flag,
            value,
            place: line,
        })?;
    }
    Ok(settings)
}

/// The settings of a configuration file, in its order. Its lines are `name=value`; blank lines,
/// lines that begin with `#`, unknown names and `cfg` are skipped. The fault is the first line
/// without `=`.
#[tactic(auto, unfolding(crate::specs::ConfigFile::settings_in_lines))]
pub fn settings_in_file(alloc: Global, text: &str) -> Result<Vec<Setting<'_>>, UsageFault>
    ensures { Gives NoMemory (λ s. s.items) result (settings_in_lines [] (lines text.now)) }
{
    let mut settings = Vec::new(alloc);
    for line in text.split('\n') {
        settings = with_line(alloc, settings, line)?;
    }
    Ok(settings)
}
