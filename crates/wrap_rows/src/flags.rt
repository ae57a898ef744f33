//! Settings of each place, and which of them counts.

use crate::arguments::{read_text, read_texts, read_variables};
use rx_base::Text;
use rx_rows::{Answer, Row, RowFault};
use rx_world::Pair;
use rx_wrap::{
    Flag, Setting, Settings, UsageFault, Words, read_words, settings_in_environment,
    settings_in_file,
};
use std::alloc::{AllocError, Global};

/// The flags in the order of their table.
const FLAGS: [Flag; 17] = [
    Flag::Config,
    Flag::ServerAddress,
    Flag::ExecRoot,
    Flag::ExecStrategy,
    Flag::Labels,
    Flag::Inputs,
    Flag::ToolchainInputs,
    Flag::OutputFiles,
    Flag::Platform,
    Flag::EnvironmentAllowlist,
    Flag::AcceptCached,
    Flag::ExecTimeout,
    Flag::ShutdownProxy,
    Flag::RelativePaths,
    Flag::InPlace,
    Flag::WithoutProxy,
    Flag::Verbose,
];

/// `words WORD ..`: the settings in order, and the command behind them.
pub(crate) fn answer_words(
    alloc: Global,
    row: &mut Row<'_>,
    answer: &mut Answer,
) -> Result<(), RowFault> {
    let words = read_texts(alloc, row)?;
    match read_words(alloc, &words) {
        Ok(read) => {
            write_settings(&read.settings, answer)?;
            write_command(read.command, answer)?;
        }
        Err(fault) => write_fault(&fault, answer)?,
    }
    Ok(())
}

/// `environment COUNT NAME VALUE ..`: the settings in order.
pub(crate) fn answer_environment(
    alloc: Global,
    row: &mut Row<'_>,
    answer: &mut Answer,
) -> Result<(), RowFault> {
    let variables = read_variables(alloc, row)?;
    let settings = settings_in_environment(alloc, &variables)?;
    write_settings(&settings, answer)?;
    Ok(())
}

/// `file TEXT`: the settings in order.
pub(crate) fn answer_file(
    alloc: Global,
    row: &mut Row<'_>,
    answer: &mut Answer,
) -> Result<(), RowFault> {
    let text = read_text(alloc, row)?;
    match settings_in_file(alloc, text.as_str()) {
        Ok(settings) => write_settings(&settings, answer)?,
        Err(fault) => write_fault(&fault, answer)?,
    }
    Ok(())
}

/// `flags FILE COUNT NAME VALUE .. WORD ..`: the setting of each flag that has one.
pub(crate) fn answer_flags(
    alloc: Global,
    row: &mut Row<'_>,
    answer: &mut Answer,
) -> Result<(), RowFault> {
    let text = read_text(alloc, row)?;
    let variables = read_variables(alloc, row)?;
    let words = read_texts(alloc, row)?;
    let (settings, _) = settings_of(alloc, &words, &variables, text.as_str())?;
    for flag in FLAGS {
        if let Some(setting) = settings.setting(flag) {
            write_setting(setting, answer)?;
        }
    }
    Ok(())
}

/// The settings of all three places, which must be readable, and the command.
pub(crate) fn settings_of<'a>(
    alloc: Global,
    words: &'a [Text],
    variables: &'a [Pair],
    text: &'a str,
) -> Result<(Settings<'a>, &'a [Text]), RowFault> {
    let Ok(
        Words {
            settings: command_line,
            command,
        },
    ) = read_words(alloc, words)
    else {
        return Err(RowFault::BadCall);
    };
    let environment = settings_in_environment(alloc, variables)?;
    let Ok(file) = settings_in_file(alloc, text) else {
        return Err(RowFault::BadCall);
    };
    let settings = Settings {
        command_line,
        environment,
        file,
    };
    Ok((settings, command))
}

/// Each setting: its flag, its value and what gave it; `nothing` for none.
fn write_settings(settings: &[Setting<'_>], answer: &mut Answer) -> Result<(), AllocError> {
    if settings.is_empty() {
        answer.word("nothing")?;
    }
    for setting in settings {
        write_setting(setting, answer)?;
    }
    Ok(())
}

fn write_setting(setting: &Setting<'_>, answer: &mut Answer) -> Result<(), AllocError> {
    answer.value(&setting.flag)?;
    answer.text(setting.value.as_bytes())?;
    answer.text(setting.place.as_bytes())
}

/// `command WORD ..`.
fn write_command(command: &[Text], answer: &mut Answer) -> Result<(), AllocError> {
    answer.word("command")?;
    for word in command {
        answer.text(word.as_str().as_bytes())?;
    }
    Ok(())
}

/// `bad WORD`, or `NoMemory`.
pub(crate) fn write_fault(fault: &UsageFault, answer: &mut Answer) -> Result<(), AllocError> {
    match fault {
        UsageFault::Word(word) => {
            answer.word("bad")?;
            answer.text(word.as_str().as_bytes())
        }
        UsageFault::NoMemory => answer.word("NoMemory"),
    }
}
