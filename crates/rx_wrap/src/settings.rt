//! Settings, and which of several counts.

ghost use Rattle.std.specs.Prelude.{◌≡◌, None, option_copied};
ghost use Rattle.rx_wrap.specs.Settings.{last_setting, setting_of};

use crate::flags::Flag;
use std::marker::Model;

/// A value that a flag was given.
#[derive(Debug, Drop)]
pub struct Setting<'a> {
    pub flag: Flag,
    pub value: &'a str,
    /// What gave it, as a fault names it: the flag's own word, the name of the environment's
    /// variable, or the file's line.
    pub place: &'a str,
}

impl<'a> Model for Setting<'a> {
    ghost use Rattle.rx_wrap.specs.Settings.{Setting};

    ghost Value = { Setting };

    ghost view = { λ s. record { flag = s.flag; value = s.value.now; place = s.place.now } };
}

/// All settings, in the order of each place. Those of the command line count before those of the
/// environment, and these before those of the file.
#[derive(Debug, Drop)]
pub struct Settings<'a> {
    pub command_line: Vec<Setting<'a>>,
    pub environment: Vec<Setting<'a>>,
    pub file: Vec<Setting<'a>>,
}

impl<'a> Model for Settings<'a> {
    ghost use Rattle.rx_wrap.specs.Settings.{Settings};

    ghost Value = { Settings };

    ghost view = { λ s. record {
      command_line = s.command_line.items;
      environment = s.environment.items;
      file = s.file.items;
    } };
}

impl<'a> Settings<'a> {
    /// The setting of a flag that counts, if it has any.
    pub fn setting(&self, flag: Flag) -> Option<&Setting<'a>>
        ensures { option_copied result ≡ setting_of flag self.now }
    {
        match last_setting(flag, &self.command_line) {
            Some(setting) => Some(setting),
            None => match last_setting(flag, &self.environment) {
                Some(setting) => Some(setting),
                None => last_setting(flag, &self.file),
            },
        }
    }
}

/// The last setting of a flag.
fn last_setting<'b, 'a>(flag: Flag, settings: &'b [Setting<'a>]) -> Option<&'b Setting<'a>>
    ensures { option_copied result ≡ last_setting flag None settings.now }
{
    let mut found = None;
    for setting in settings {
        if setting.flag.is(flag) {
            found = Some(setting);
        }
    }
    found
}
