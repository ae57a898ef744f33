//! Settings of the environment: variables `RBE_name`.

ghost use Rattle.std.specs.Prelude.{◌≡◌, IfOk};
ghost use Rattle.rx_wrap.specs.Environment.{setting_in, settings_in};

use crate::flags::Flag;
use crate::settings::Setting;
use crate::strips::stripped;
use rx_base::NoMemory;
use rx_world::Pair;
use std::alloc::Global;

/// The setting that a variable is.
fn setting_in(variable: &Pair) -> Option<Setting<'_>>
    ensures { result ≡ setting_in variable.now }
{
    let name = stripped("RBE_", variable.name.as_str())?;
    Some(Setting {
        flag: Flag::named(name)?,
        value: variable.value.as_str(),
        place: variable.name.as_str(),
    })
}

/// The settings of an environment, in its order. Variables of other names are none.
pub fn settings_in_environment(
    alloc: Global,
    variables: &[Pair],
) -> Result<Vec<Setting<'_>>, NoMemory>
    ensures { IfOk result (λ settings. settings.items ≡ settings_in variables.now) }
{
    let mut settings = Vec::new(alloc);
    for variable in variables {
        if let Some(setting) = setting_in(variable) {
            settings.push(setting)?;
        }
    }
    Ok(settings)
}
