//! What is asked for by words, an environment, a file and a working directory.

use crate::arguments::{read_text, read_texts, read_variables};
use crate::flags::{settings_of, write_fault};
use rx_base::Text;
use rx_rows::{Answer, Row, RowFault};
use rx_session::Request;
use rx_world::Pair;
use rx_wrap::{Address, Called, Errand, Job, Task, UsageFault, job_of};
use std::alloc::{AllocError, Global};

/// What a row asks by: the text of a file, variables, the working directory and the words.
fn read_job(alloc: Global, row: &mut Row<'_>) -> Result<Result<Job, UsageFault>, RowFault> {
    let file = read_text(alloc, row)?;
    let variables = read_variables(alloc, row)?;
    let directory = read_text(alloc, row)?;
    let words = read_texts(alloc, row)?;
    let (settings, command) = settings_of(alloc, &words, &variables, file.as_str())?;
    let called = Called {
        command,
        variables: &variables,
        directory: directory.as_str(),
        root: None,
    };
    Ok(job_of(alloc, &settings, &called))
}

/// `asked FILE COUNT NAME VALUE .. DIRECTORY WORD ..`: the address, and the request in words, but
/// for what is empty; or `here`. The system resolves no root.
pub(crate) fn answer_asked(
    alloc: Global,
    row: &mut Row<'_>,
    answer: &mut Answer,
) -> Result<(), RowFault> {
    match read_job(alloc, row)? {
        Ok(job) => write_job(&job, answer)?,
        Err(fault) => write_fault(&fault, answer)?,
    }
    Ok(())
}

/// `payload FILE COUNT NAME VALUE .. DIRECTORY WORD ..`: the message of the request.
pub(crate) fn answer_payload(
    alloc: Global,
    row: &mut Row<'_>,
    answer: &mut Answer,
) -> Result<(), RowFault> {
    match read_job(alloc, row)? {
        Ok(job) => write_payload(alloc, &job.task, answer)?,
        Err(fault) => write_fault(&fault, answer)?,
    }
    Ok(())
}

fn write_payload(alloc: Global, task: &Task, answer: &mut Answer) -> Result<(), AllocError> {
    match task {
        Task::Ask(asked) => match &asked.errand {
            Errand::Run(request) => answer.bytes(&request.encode(alloc)?),
            Errand::ShutDown => answer.word("shutdown"),
        },
        Task::RunInPlace => answer.word("here"),
    }
}

/// What is to be done, and the switches that are set for a command that runs in place.
fn write_job(job: &Job, answer: &mut Answer) -> Result<(), AllocError> {
    write_task(&job.task, answer)?;
    write_set("without_proxy", job.without_proxy, answer)?;
    write_set("verbose", job.verbose, answer)
}

fn write_task(task: &Task, answer: &mut Answer) -> Result<(), AllocError> {
    match task {
        Task::Ask(asked) => {
            write_address(&asked.address, answer)?;
            write_errand(&asked.errand, answer)
        }
        Task::RunInPlace => answer.word("here"),
    }
}

/// The name of what is set.
fn write_set(name: &str, is_set: bool, answer: &mut Answer) -> Result<(), AllocError> {
    if is_set {
        return answer.word(name);
    }
    Ok(())
}

fn write_errand(errand: &Errand, answer: &mut Answer) -> Result<(), AllocError> {
    match errand {
        Errand::Run(request) => write_request(request, answer),
        Errand::ShutDown => answer.word("shutdown"),
    }
}

pub(crate) fn write_address(address: &Address, answer: &mut Answer) -> Result<(), AllocError> {
    match address {
        Address::Unix(path) => {
            answer.word("unix")?;
            answer.text(path.as_str().as_bytes())
        }
        Address::Port(port) => {
            answer.word("port")?;
            answer.number(u64::from(*port))
        }
    }
}

/// The fields of a request in the order of their numbers; lists only where they have items, and
/// `in_place` only where it is set.
fn write_request(request: &Request, answer: &mut Answer) -> Result<(), AllocError> {
    answer.text(request.root.as_str().as_bytes())?;
    write_texts("words", request.words.as_slice(), answer)?;
    write_pairs("environment", request.environment.as_slice(), answer)?;
    answer.word("in")?;
    answer.text(request.working_directory.as_str().as_bytes())?;
    answer.value(&request.strategy)?;
    answer.value(&request.kind)?;
    write_texts("inputs", request.inputs.as_slice(), answer)?;
    write_texts("toolchain", request.toolchain_inputs.as_slice(), answer)?;
    write_texts("outputs", request.outputs.as_slice(), answer)?;
    write_pairs("platform", request.platform.as_slice(), answer)?;
    answer.value(&request.accept_cached)?;
    answer.value(&request.watch)?;
    answer.number(u64::from(request.timeout_seconds))?;
    write_set("in_place", request.in_place, answer)
}

fn write_texts(name: &str, texts: &[Text], answer: &mut Answer) -> Result<(), AllocError> {
    if texts.is_empty() {
        return Ok(());
    }
    answer.word(name)?;
    for text in texts {
        answer.text(text.as_str().as_bytes())?;
    }
    Ok(())
}

fn write_pairs(name: &str, pairs: &[Pair], answer: &mut Answer) -> Result<(), AllocError> {
    if pairs.is_empty() {
        return Ok(());
    }
    answer.word(name)?;
    for pair in pairs {
        answer.text(pair.name.as_str().as_bytes())?;
        answer.text(pair.value.as_str().as_bytes())?;
    }
    Ok(())
}
