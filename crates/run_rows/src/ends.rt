//! The ends of a session's attempts, and what became of the passes of their race, in words.

use crate::outcomes::show_listed;
use crate::replies::show_cause;
use rx_base::{Items, NoMemory};
use rx_engine::Passes;
use rx_farm_values::write_remote_cause;
use rx_race::{Slip, Verdict};
use rx_row_values::write_digest;
use rx_rows::Answer;
use rx_world::{Cause, End, Ended, KeptOutcome, Origin, RemoteCause};
use std::alloc::Global;

/// The end of each attempt that was started, or `none`.
pub(crate) fn show_ends(
    alloc: Global,
    answer: &mut Answer,
    ends: &Items<Ended>,
) -> Result<(), NoMemory> {
    if ends.is_empty() {
        return answer.word("none");
    }
    for end in ends.as_slice() {
        show_end(alloc, answer, end)?;
    }
    Ok(())
}

/// The attempt, and how it ended.
fn show_end(alloc: Global, answer: &mut Answer, ended: &Ended) -> Result<(), NoMemory> {
    match ended {
        Ended::Local { end } => {
            answer.word("local")?;
            show_local(alloc, answer, end)
        }
        Ended::Remote { end } => {
            answer.word("remote")?;
            show_remote(alloc, answer, end)
        }
    }
}

fn show_local(
    alloc: Global,
    answer: &mut Answer,
    end: &End<KeptOutcome, Cause>,
) -> Result<(), NoMemory> {
    match end {
        End::Done { outcome, origin } => show_kept(alloc, answer, outcome, *origin),
        End::Failed { cause } => {
            answer.word("Failed")?;
            show_cause(alloc, answer, cause)
        }
    }
}

fn show_remote(
    alloc: Global,
    answer: &mut Answer,
    end: &End<KeptOutcome, RemoteCause>,
) -> Result<(), NoMemory> {
    match end {
        End::Done { outcome, origin } => show_kept(alloc, answer, outcome, *origin),
        End::Failed { cause } => {
            answer.word("Failed")?;
            write_remote_cause(alloc, cause, answer)
        }
    }
}

/// An outcome as it is kept: the code, where it comes from, the digests of standard output and of
/// standard error, and the files.
fn show_kept(
    alloc: Global,
    answer: &mut Answer,
    outcome: &KeptOutcome,
    origin: Origin,
) -> Result<(), NoMemory> {
    answer.word("Done")?;
    answer.value(&outcome.code)?;
    answer.value(&origin)?;
    write_digest(alloc, answer, &outcome.stdout)?;
    write_digest(alloc, answer, &outcome.stderr)?;
    show_listed(alloc, answer, outcome.files.as_slice())
}

/// What became of the pass of the local attempt, of that of the remote one, and of the right to cancel.
pub(crate) fn show_passes(answer: &mut Answer, passes: Passes) -> Result<(), NoMemory> {
    answer.word("local")?;
    answer.word(slip_word(passes.local))?;
    answer.word("remote")?;
    answer.word(slip_word(passes.remote))?;
    answer.word("cancel")?;
    answer.word(slip_word(passes.cancel))
}

fn slip_word(slip: Slip) -> &'static str {
    match slip {
        Slip::Unused => "unused",
        Slip::Refused => "refused",
        Slip::Live => "live",
        Slip::Stopped(_) => "stopped",
        Slip::Told(Verdict::Won) => "won",
        Slip::Told(Verdict::Late) | Slip::Yielded(_) => "late",
        Slip::Told(Verdict::Noted) => "noted",
    }
}
