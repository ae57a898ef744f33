//! What a client is to do, by its settings and by how it was called.

ghost use Rattle.std.specs.Prelude.{◌≡◌, IfOk, if◌then◌else◌};
ghost use Rattle.rx_base.specs.Results.{Gives};
ghost use Rattle.rx_wrap.specs.Asking.{command_in, items_of, job_of, request_of, root_in, runs_in_place, task_by, task_of, task_outside};
ghost use Rattle.rx_wrap.specs.RelativePaths.{relative_words};
ghost use Rattle.rx_wrap.specs.declared.usage_fault.UsageFault.TheVariants.{NoMemory};

use crate::asked::{Asked, Errand};
use crate::called::Called;
use crate::choices::is_compile;
use crate::commas::{copies, parts};
use crate::directories::{below, trimmed};
use crate::flags::Flag;
use crate::relative_paths::relative_words;
use crate::settings::Settings;
use crate::usage_fault::UsageFault;
use crate::values::{Values, counting, values_in};
use crate::variables::environment_of;
use rx_base::{Items, NoMemory, Text, TryClone};
use rx_session::Request;
use std::alloc::Global;

/// What a client is to do, and the command that it may have to run in place.
#[derive(Debug, Drop)]
pub struct Job {
    pub task: Task,
    /// The program and its arguments, as they were given.
    pub command: Items<Text>,
    /// The working directory.
    pub directory: Text,
    /// Whether the command runs in place where there is no proxy; never where the proxy is to end.
    pub without_proxy: bool,
    /// Whether a line says why the command runs in place.
    pub verbose: bool,
}

/// What is to be done first.
#[derive(Debug, Drop)]
pub enum Task {
    /// The proxy is asked.
    Ask(Asked),
    /// The command runs in place, and the proxy isn't asked.
    RunInPlace,
}

/// The items of a flag's value.
fn items_of(alloc: Global, settings: &Settings<'_>, flag: Flag) -> Result<Items<Text>, NoMemory>
    ensures { IfOk result (λ items. items ≡ items_of flag settings.now) }
{
    let parts = parts(alloc, counting(settings, flag).value)?;
    copies(alloc, &parts)
}

/// The fault where there is no command.
fn check_command(alloc: Global, command: &[Text]) -> Result<(), UsageFault>
    ensures { Gives NoMemory (λ _. command.now) result (command_in command.now) }
{
    if command.is_empty() {
        return Err(UsageFault::Word(Text::copy_of(alloc, "command")?));
    }
    Ok(())
}

/// The root, which must be given, as the system resolves its path, or else without a slash at its
/// end.
fn root_in(
    alloc: Global,
    settings: &Settings<'_>,
    resolved: &Option<Text>,
) -> Result<Text, UsageFault>
    ensures { Gives NoMemory (λ root. root) result (root_in settings.now resolved.now) }
{
    match settings.setting(Flag::ExecRoot) {
        Some(given) => match resolved {
            Some(resolved) => Ok(resolved.try_clone(alloc)?),
            None => Ok(Text::copy_of(alloc, trimmed(given.value))?),
        },
        None => Err(UsageFault::Word(Text::copy_of(alloc, "exec_root")?)),
    }
}

/// Whether a step that the proxy can't take runs in place.
fn runs_in_place(values: &Values) -> bool
    ensures { result ≡ runs_in_place values.now }
{
    is_compile(values.kind) && values.in_place
}

/// The words as they are sent.
fn words_of(
    alloc: Global,
    relative_paths: bool,
    root: &str,
    directory: &str,
    command: &[Text],
) -> Result<Items<Text>, NoMemory>
    ensures { IfOk result (λ words. words ≡ (if relative_paths
        then relative_words root.now directory.now command.now else command.now)) }
{
    if relative_paths {
        relative_words(alloc, root, directory, command)
    } else {
        Items::copy_of(alloc, command)
    }
}

/// The request of a command whose working directory is this below the root.
fn request_of(
    alloc: Global,
    values: &Values,
    settings: &Settings<'_>,
    called: &Called<'_>,
    root: &str,
    directory: &str,
) -> Result<Request, NoMemory>
    ensures { IfOk result (λ request. request
        ≡ request_of values.now settings.now called.now root.now directory.now) }
{
    let relative_paths = values.relative_paths;
    let words = words_of(alloc, relative_paths, root, directory, called.command)?;
    let names = parts(alloc, counting(settings, Flag::EnvironmentAllowlist).value)?;
    Ok(Request {
        root: Text::copy_of(alloc, root)?,
        words,
        environment: environment_of(alloc, values.kind, called.variables, &names)?,
        working_directory: Text::copy_of(alloc, directory)?,
        strategy: values.strategy,
        kind: values.kind,
        inputs: items_of(alloc, settings, Flag::Inputs)?,
        toolchain_inputs: items_of(alloc, settings, Flag::ToolchainInputs)?,
        outputs: items_of(alloc, settings, Flag::OutputFiles)?,
        platform: values.platform.try_clone(alloc)?,
        accept_cached: values.accept_cached,
        watch: true,
        timeout_seconds: values.timeout_seconds,
        in_place: runs_in_place(values),
    })
}

/// What is to be done where the working directory isn't at or below the root.
fn task_outside(alloc: Global, values: &Values) -> Result<Task, UsageFault>
    ensures { Gives NoMemory (λ task. task) result (task_outside values.now) }
{
    if runs_in_place(values) {
        return Ok(Task::RunInPlace);
    }
    Err(UsageFault::Word(Text::copy_of(alloc, "exec_root")?))
}

/// What is to be done with a command.
#[tactic(auto, unfolding(crate::specs::Asking::task_by))]
fn task_by(
    alloc: Global,
    values: Values,
    settings: &Settings<'_>,
    called: &Called<'_>,
) -> Result<Task, UsageFault>
    ensures { Gives NoMemory (λ task. task) result (task_by values settings.now called.now) }
{
    check_command(alloc, called.command)?;
    let root = root_in(alloc, settings, &called.root)?;
    match below(root.as_str(), called.directory) {
        Some(directory) => {
            let request = request_of(alloc, &values, settings, called, root.as_str(), directory)?;
            Ok(Task::Ask(Asked {
                address: values.address,
                errand: Errand::Run(request),
            }))
        }
        None => task_outside(alloc, &values),
    }
}

/// What is to be done.
fn task_of(
    alloc: Global,
    values: Values,
    settings: &Settings<'_>,
    called: &Called<'_>,
) -> Result<Task, UsageFault>
    ensures { Gives NoMemory (λ task. task) result (task_of values settings.now called.now) }
{
    if values.shuts_down {
        return Ok(Task::Ask(Asked {
            address: values.address,
            errand: Errand::ShutDown,
        }));
    }
    task_by(alloc, values, settings, called)
}

/// What a client is to do: it asks for the request of its settings, its command, the environment and
/// the working directory; it runs the command in place, where that directory is outside of the root
/// and the settings let a compile step; or it asks for the end of the proxy. The fault names, in this
/// order: the first bad value in the order of the flags' table; `command`, where there is none;
/// `exec_root`, where it isn't given or the working directory is outside of it. The end of a proxy
/// needs neither. What a proxy would refuse is asked all the same.
#[tactic(auto, unfolding(crate::specs::Asking::job_of))]
pub fn job_of(
    alloc: Global,
    settings: &Settings<'_>,
    called: &Called<'_>,
) -> Result<Job, UsageFault>
    ensures { Gives NoMemory (λ job. job) result (job_of settings.now called.now) }
{
    let values = values_in(alloc, settings)?;
    let without_proxy = values.without_proxy && !values.shuts_down;
    let verbose = values.verbose;
    let task = task_of(alloc, values, settings, called)?;
    Ok(Job {
        task,
        command: Items::copy_of(alloc, called.command)?,
        directory: Text::copy_of(alloc, called.directory)?,
        without_proxy,
        verbose,
    })
}
