//! What is asked for: by the words and the environment, and by the file that these name.

ghost use Rattle.std.specs.Prelude.{◌≡◌, IfOk};
ghost use Rattle.rx_base.specs.Results.{Gives};
ghost use Rattle.rx_world.specs.Causes.{HasCauseOf};
ghost use Rattle.rx_wrap.specs.Settings.{Setting, setting_of};
ghost use Rattle.rx_wrap.specs.declared.flags.Flag.TheVariants.{ExecRoot as root_flag};
ghost use Rattle.rx_wrap.specs.declared.usage_fault.UsageFault.TheVariants.{NoMemory as no_memory};
ghost use Rattle.rx_client.specs.Asking.{AreBytesOf, Asks, FindsJob, IsResolved, file_named, settings_by, settings_in_bytes, settings_with};
ghost use Rattle.rx_client.specs.declared.ask_fault.AskFault.TheVariants.{Config as config_lost};

use crate::ask_fault::AskFault;
use crate::invocation::Invocation;
use crate::outside::{Configs, Machine};
use rx_base::{NoMemory, Text};
use rx_world::Refused;
use rx_wrap::{
    Called, Flag, Job, Setting, Settings, UsageFault, Words, job_of, read_words,
    settings_in_environment, settings_in_file,
};
use std::alloc::Global;

/// The setting that names the configuration file. An empty path names none.
fn file_named<'a>(settings: &Settings<'a>) -> Option<Setting<'a>>
    ensures { result ≡ file_named settings.now }
{
    let given = settings.setting(Flag::Config)?;
    if given.value.is_empty() {
        return None;
    }
    Some(Setting {
        flag: given.flag,
        value: given.value,
        place: given.place,
    })
}

/// The bytes of the file, where one is named.
fn read_file<G: Configs>(
    alloc: Global,
    configs: &mut G,
    named: &Option<Setting<'_>>,
) -> Result<Vec<u8>, Refused>
    ensures bytes { IfOk result (λ bytes. AreBytesOf (G.held configs.old) named.now bytes.items) }
    ensures cause { HasCauseOf Refused.Failed (G.faults configs.old) (G.faults configs.new) result }
{
    match named {
        Some(named) => configs.read(named.value),
        None => Ok(Vec::new(alloc)),
    }
}

/// The settings in the bytes of a file that a place names.
#[tactic(auto, unfolding(crate::specs::Asking::settings_in_bytes))]
fn settings_in_bytes<'a>(
    alloc: Global,
    place: &str,
    bytes: &'a [u8],
) -> Result<Vec<Setting<'a>>, UsageFault>
    ensures { Gives no_memory (λ s. s.items) result (settings_in_bytes place.now bytes.now) }
{
    match std::str::from_utf8(bytes) {
        Ok(text) => settings_in_file(alloc, text),
        Err(_) => Err(UsageFault::Word(Text::copy_of(alloc, place)?)),
    }
}

/// The settings of the file, where one is named.
fn settings_by<'a>(
    alloc: Global,
    named: &Option<Setting<'_>>,
    bytes: &'a [u8],
) -> Result<Vec<Setting<'a>>, UsageFault>
    ensures { Gives no_memory (λ s. s.items) result (settings_by named.now bytes.now) }
{
    match named {
        Some(named) => settings_in_bytes(alloc, named.place, bytes),
        None => Ok(Vec::new(alloc)),
    }
}

/// All settings, where the file holds these bytes.
#[tactic(auto, unfolding(crate::specs::Asking::settings_with))]
fn settings_with<'a>(
    alloc: Global,
    settings: Settings<'a>,
    bytes: &'a [u8],
) -> Result<Settings<'a>, UsageFault>
    ensures { Gives no_memory (λ s. s) result (settings_with settings.entry bytes.now) }
{
    let named = file_named(&settings);
    let file = settings_by(alloc, &named, bytes)?;
    let Settings {
        command_line,
        environment,
        ..
    } = settings;
    Ok(Settings {
        command_line,
        environment,
        file,
    })
}

/// The root that is given, as the machine resolves its path.
fn resolved_root<M: Machine>(machine: &M, settings: &Settings<'_>) -> Result<Option<Text>, NoMemory>
    ensures { IfOk result (λ root. IsResolved (M.resolved machine.now)
        (setting_of root_flag settings.now) root) }
{
    match settings.setting(Flag::ExecRoot) {
        Some(given) => machine.resolve(given.value),
        None => Ok(None),
    }
}

/// What is to be done, where the file holds these bytes.
fn job_by<'a, M: Machine>(
    alloc: Global,
    invocation: &Invocation<'a>,
    machine: &M,
    settings: Settings<'a>,
    command: &'a [Text],
    bytes: &'a [u8],
) -> Result<Job, UsageFault>
    ensures { FindsJob (M.resolved machine.now) invocation.now settings.entry command.now bytes.now
        result }
{
    let settings = settings_with(alloc, settings, bytes)?;
    let called = Called {
        command,
        variables: invocation.environment,
        directory: invocation.directory,
        root: resolved_root(machine, &settings)?,
    };
    job_of(alloc, &settings, &called)
}

/// What is to be done by an invocation. The faults come in this order: of the words from left to
/// right; of the read of the file that they or the environment name; of its lines; of the values.
pub(crate) fn ask<G: Configs, M: Machine>(
    alloc: Global,
    invocation: &Invocation<'_>,
    configs: &mut G,
    machine: &M,
) -> Result<Job, AskFault>
    ensures asks { Asks (G.held configs.old) (M.resolved machine.now) invocation.now result }
    ensures cause { HasCauseOf config_lost (G.faults configs.old) (G.faults configs.new) result }
{
    let Words { settings, command } = read_words(alloc, invocation.words)?;
    let settings = Settings {
        command_line: settings,
        environment: settings_in_environment(alloc, invocation.environment)?,
        file: Vec::new(alloc),
    };
    let named = file_named(&settings);
    let bytes = read_file(alloc, configs, &named)?;
    Ok(job_by(alloc, invocation, machine, settings, command, &bytes)?)
}
