//! The Command message of a command.

ghost use Rattle.std.specs.Prelude.{◌≡◌, IfOk, map};
ghost use Rattle.rx_action.specs.Commands.{command_message, in_output_files, in_output_paths};
ghost use Rattle.rx_action.specs.Commands.{platform_of, property_of, variable_of};

use crate::output_paths::output_paths;
use crate::pairs::sort_pairs;
use rx_base::{Items, NoMemory, Text, TryClone};
use rx_messages::{EnvironmentVariable, Platform, Property};
use rx_world::{Command, Dialect, Pair};
use std::alloc::Global;

/// The message of a command, whose outputs are below its working directory, for a farm of this
/// dialect.
pub(crate) fn command_message(
    alloc: Global,
    command: &Command,
    dialect: Dialect,
) -> Result<rx_messages::Command, NoMemory>
    ensures { IfOk result (λ message. message ≡ command_message command.now dialect) }
{
    let directory = &command.working_directory;
    let paths = output_paths(alloc, directory, command.outputs.as_slice())?;
    let outputs = output_fields(alloc, paths, dialect);
    let environment = sort_pairs(alloc, &command.environment)?;
    let platform = platform_of(alloc, &command.platform)?;
    Ok(rx_messages::Command {
        arguments: command.words.try_clone(alloc)?,
        environment_variables: variables_of(alloc, environment)?,
        output_files: outputs.files,
        output_directories: Items::new(alloc),
        platform,
        working_directory: Text::copy_of(alloc, directory.as_str())?,
        output_paths: outputs.paths,
    })
}

/// The two fields of a Command that may tell its outputs.
#[derive(Drop)]
struct OutputFields {
    files: Items<Text>,
    paths: Items<Text>,
}

/// These output paths in the field that a farm of this dialect reads. The other field is empty.
fn output_fields(alloc: Global, paths: Items<Text>, dialect: Dialect) -> OutputFields
    ensures files { result.files ≡ in_output_files dialect paths }
    ensures paths { result.paths ≡ in_output_paths dialect paths }
{
    match dialect {
        Dialect::New => OutputFields {
            files: Items::new(alloc),
            paths,
        },
        Dialect::Old => OutputFields {
            files: paths,
            paths: Items::new(alloc),
        },
    }
}

/// A platform of these properties in their order, or none where there is no property.
fn platform_of(alloc: Global, pairs: &Items<Pair>) -> Result<Option<Platform>, NoMemory>
    ensures { IfOk result (λ platform. platform ≡ platform_of pairs.now) }
{
    if pairs.is_empty() {
        return Ok(None);
    }
    let pairs = sort_pairs(alloc, pairs)?;
    let properties = properties_of(alloc, pairs)?;
    Ok(Some(Platform { properties }))
}

/// These pairs as variables of an environment, in the same order.
fn variables_of(alloc: Global, pairs: Vec<Pair>) -> Result<Items<EnvironmentVariable>, NoMemory>
    ensures { IfOk result (λ variables. variables ≡ map variable_of pairs.items) }
{
    let mut variables = Items::new(alloc);
    for pair in pairs {
        variables.push(EnvironmentVariable {
            name: pair.name,
            value: pair.value,
        })?;
    }
    Ok(variables)
}

/// These pairs as properties of a platform, in the same order.
fn properties_of(alloc: Global, pairs: Vec<Pair>) -> Result<Items<Property>, NoMemory>
    ensures { IfOk result (λ properties. properties ≡ map property_of pairs.items) }
{
    let mut properties = Items::new(alloc);
    for pair in pairs {
        properties.push(Property {
            name: pair.name,
            value: pair.value,
        })?;
    }
    Ok(properties)
}
