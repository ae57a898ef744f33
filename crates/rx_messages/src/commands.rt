//! What is run (`remote_execution.proto`, Command, Platform).

use crate::numbers::{command, environment_variable, platform, property};
use rx_base::{Items, NoMemory, Text};
use rx_codec::{FieldList, Message, MessageFault, Shape, Writer, check_message, check_text};
use rx_wire::{Fields, Value, WireFault};
use std::alloc::Global;

/// A variable of the environment.
#[derive(Debug, Drop)]
pub struct EnvironmentVariable {
    pub name: Text,
    pub value: Text,
}

impl Shape for EnvironmentVariable {
    ghost use Rattle.rx_messages.specs.Commands.{environment_variable_parts};

    ghost parts = { environment_variable_parts };
}

impl Message for EnvironmentVariable {
    ghost use Rattle.rx_codec.specs.Decoding.{any_form};
    ghost use Rattle.rx_messages.specs.Commands.{environment_variable_fields, environment_variable_from, environment_variable_is_readable};

    ghost fields = { environment_variable_fields };

    ghost from = { environment_variable_from };

    ghost is_canonical = { any_form };

    ghost IsReadable = { environment_variable_is_readable };

    #[tactic(auto, unfolding(rx_codec::specs::Parts::part_checked))]
    fn check_field(number: u32, value: Value<'_>, read: &Fields<'_>) -> Result<(), WireFault> {
        match number {
            environment_variable::NAME | environment_variable::VALUE => check_text(
                number, value, read,
            ),
            _ => Ok(()),
        }
    }

    #[tactic(auto, unfolding(crate::specs::Commands::environment_variable_from))]
    fn from_fields(
        alloc: Global,
        list: &FieldList<'_, EnvironmentVariable>,
    ) -> Result<EnvironmentVariable, MessageFault> {
        let name = list.text(alloc, environment_variable::NAME)?;
        let value = list.text(alloc, environment_variable::VALUE)?;
        Ok(EnvironmentVariable { name, value })
    }

    #[tactic(auto, unfolding(crate::specs::Commands::environment_variable_fields))]
    fn write(&self, alloc: Global, out: &mut Writer<EnvironmentVariable>) -> Result<(), NoMemory> {
        out.text(environment_variable::NAME, self.name.as_str())?;
        out.text(environment_variable::VALUE, self.value.as_str())
    }

    fn has_one_form(&self, alloc: Global, bytes: &[u8]) -> Result<bool, NoMemory> {
        Ok(true)
    }
}

/// A property that the worker has to have.
#[derive(Debug, Drop)]
pub struct Property {
    pub name: Text,
    pub value: Text,
}

impl Shape for Property {
    ghost use Rattle.rx_messages.specs.Commands.{property_parts};

    ghost parts = { property_parts };
}

impl Message for Property {
    ghost use Rattle.rx_codec.specs.Decoding.{any_form};
    ghost use Rattle.rx_messages.specs.Commands.{property_fields, property_from, property_is_readable};

    ghost fields = { property_fields };

    ghost from = { property_from };

    ghost is_canonical = { any_form };

    ghost IsReadable = { property_is_readable };

    #[tactic(auto, unfolding(rx_codec::specs::Parts::part_checked))]
    fn check_field(number: u32, value: Value<'_>, read: &Fields<'_>) -> Result<(), WireFault> {
        match number {
            property::NAME | property::VALUE => check_text(number, value, read),
            _ => Ok(()),
        }
    }

    #[tactic(auto, unfolding(crate::specs::Commands::property_from))]
    fn from_fields(
        alloc: Global,
        list: &FieldList<'_, Property>,
    ) -> Result<Property, MessageFault> {
        let name = list.text(alloc, property::NAME)?;
        let value = list.text(alloc, property::VALUE)?;
        Ok(Property { name, value })
    }

    #[tactic(auto, unfolding(crate::specs::Commands::property_fields))]
    fn write(&self, alloc: Global, out: &mut Writer<Property>) -> Result<(), NoMemory> {
        out.text(property::NAME, self.name.as_str())?;
        out.text(property::VALUE, self.value.as_str())
    }

    fn has_one_form(&self, alloc: Global, bytes: &[u8]) -> Result<bool, NoMemory> {
        Ok(true)
    }
}

/// The properties that the worker has to have, sorted by name and then by value.
#[derive(Debug, Drop)]
pub struct Platform {
    pub properties: Items<Property>,
}

impl Shape for Platform {
    ghost use Rattle.rx_messages.specs.Commands.{platform_parts};

    ghost parts = { platform_parts };
}

impl Message for Platform {
    ghost use Rattle.rx_codec.specs.Decoding.{any_form};
    ghost use Rattle.rx_messages.specs.Commands.{platform_fields, platform_from, platform_is_readable};

    ghost fields = { platform_fields };

    ghost from = { platform_from };

    ghost is_canonical = { any_form };

    ghost IsReadable = { platform_is_readable };

    #[tactic(auto, unfolding(rx_codec::specs::Parts::part_checked))]
    fn check_field(number: u32, value: Value<'_>, read: &Fields<'_>) -> Result<(), WireFault> {
        match number {
            platform::PROPERTIES => check_message::<Property>(number, value, read),
            _ => Ok(()),
        }
    }

    #[tactic(auto, unfolding(crate::specs::Commands::platform_from))]
    fn from_fields(
        alloc: Global,
        list: &FieldList<'_, Platform>,
    ) -> Result<Platform, MessageFault> {
        let properties = list.messages(alloc, platform::PROPERTIES)?;
        Ok(Platform { properties })
    }

    #[tactic(auto, unfolding(crate::specs::Commands::platform_fields))]
    fn write(&self, alloc: Global, out: &mut Writer<Platform>) -> Result<(), NoMemory> {
        out.messages(alloc, platform::PROPERTIES, &self.properties)
    }

    fn has_one_form(&self, alloc: Global, bytes: &[u8]) -> Result<bool, NoMemory> {
        Ok(true)
    }
}

/// What is run.
#[derive(Debug, Drop)]
pub struct Command {
    pub arguments: Items<Text>,
    pub environment_variables: Items<EnvironmentVariable>,
    pub output_files: Items<Text>,
    pub output_directories: Items<Text>,
    pub platform: Option<Platform>,
    pub working_directory: Text,
    pub output_paths: Items<Text>,
}

impl Shape for Command {
    ghost use Rattle.rx_messages.specs.Commands.{command_parts};

    ghost parts = { command_parts };
}

impl Message for Command {
    ghost use Rattle.rx_codec.specs.Decoding.{any_form};
    ghost use Rattle.rx_messages.specs.Commands.{command_fields, command_from, command_is_readable};

    ghost fields = { command_fields };

    ghost from = { command_from };

    ghost is_canonical = { any_form };

    ghost IsReadable = { command_is_readable };

    #[tactic(auto, unfolding(rx_codec::specs::Parts::part_checked))]
    fn check_field(number: u32, value: Value<'_>, read: &Fields<'_>) -> Result<(), WireFault> {
        match number {
            command::ARGUMENTS
            | command::OUTPUT_FILES
            | command::OUTPUT_DIRECTORIES
            | command::WORKING_DIRECTORY
            | command::OUTPUT_PATHS => check_text(number, value, read),
            command::ENVIRONMENT_VARIABLES => check_message::<EnvironmentVariable>(
                number, value, read,
            ),
            command::PLATFORM => check_message::<Platform>(number, value, read),
            _ => Ok(()),
        }
    }

    #[tactic(auto, unfolding(crate::specs::Commands::command_from))]
    fn from_fields(alloc: Global, list: &FieldList<'_, Command>) -> Result<Command, MessageFault> {
        let arguments = list.texts(alloc, command::ARGUMENTS)?;
        let environment_variables = list.messages(alloc, command::ENVIRONMENT_VARIABLES)?;
        let output_files = list.texts(alloc, command::OUTPUT_FILES)?;
        let output_directories = list.texts(alloc, command::OUTPUT_DIRECTORIES)?;
        let platform = list.message(alloc, command::PLATFORM)?;
        let working_directory = list.text(alloc, command::WORKING_DIRECTORY)?;
        let output_paths = list.texts(alloc, command::OUTPUT_PATHS)?;
        Ok(Command {
            arguments,
            environment_variables,
            output_files,
            output_directories,
            platform,
            working_directory,
            output_paths,
        })
    }

    #[tactic(auto, unfolding(crate::specs::Commands::command_fields))]
    fn write(&self, alloc: Global, out: &mut Writer<Command>) -> Result<(), NoMemory> {
        out.texts(command::ARGUMENTS, &self.arguments)?;
        out.messages(
            alloc,
            command::ENVIRONMENT_VARIABLES,
            &self.environment_variables,
        )?;
        out.texts(command::OUTPUT_FILES, &self.output_files)?;
        out.texts(command::OUTPUT_DIRECTORIES, &self.output_directories)?;
        out.message(alloc, command::PLATFORM, &self.platform)?;
        out.text(command::WORKING_DIRECTORY, self.working_directory.as_str())?;
        out.texts(command::OUTPUT_PATHS, &self.output_paths)
    }

    fn has_one_form(&self, alloc: Global, bytes: &[u8]) -> Result<bool, NoMemory> {
        Ok(true)
    }
}
