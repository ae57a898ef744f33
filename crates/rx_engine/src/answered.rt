//! Replies made ready to be written: each with its frame. Nothing here gathers, runs or publishes.

ghost use Rattle.std.specs.Prelude.{◌≡◌, ◌++◌, IfOk, OnOk};
ghost use Rattle.std.specs.List.{flat_map};
ghost use Rattle.rx_scan.specs.declared.gather_fault.GatherFault.TheVariants as faults;
ghost use Rattle.rx_session.specs.Replies.{frame_of};
ghost use Rattle.rx_engine.specs.Answered.{AnswersFault, IsFailure, IsPlain, IsUnpublishedEnd, bad_request, reply_no_memory};
ghost use Rattle.rx_engine.specs.Attempts.{AreTellable, IsTellable, failure_of};
ghost use Rattle.rx_engine.specs.Ready.{IsOrGivenUp};

use rx_base::{Items, NoMemory, RelPath, TryClone};
use rx_board::Receipt;
use rx_scan::GatherFault;
use rx_session::{Bad, CancelReason, InPlaceCause, Reply, encode};
use rx_world::{Cause, End, Ended, Failure, Limit, LocalCause, RemoteCause};
use std::alloc::{AllocError, Global};

/// A reply with its frame, and the receipt that it tells.
#[derive(Drop)]
pub(crate) struct Answered {
    pub reply: Reply,
    pub frame: Vec<u8>,
    pub receipt: Option<Receipt>,
}

/// A reply without a publication.
pub(crate) fn plain(alloc: Global, reply: Reply) -> Result<Answered, NoMemory>
    ensures { IfOk result (IsPlain reply) }
{
    let frame = encode(alloc, &reply)?;
    Ok(Answered {
        reply,
        frame,
        receipt: None,
    })
}

/// The answer to bytes that are no request.
pub(crate) fn refuse(alloc: Global, bad: Bad) -> Result<Answered, NoMemory>
    ensures { IfOk result (IsPlain (bad_request bad)) }
{
    plain(alloc, Reply::BadRequest { bad })
}

/// The answer that was made, or else the one which says that memory ran out, if there is memory for it.
pub(crate) fn or_give_up(alloc: Global, answered: Result<Answered, NoMemory>) -> Option<Answered>
    ensures { IsOrGivenUp answered result }
{
    match answered {
        Ok(answered) => Some(answered),
        Err(_) => give_up(alloc).ok(),
    }
}

/// The answer where memory ran out.
fn give_up(alloc: Global) -> Result<Answered, NoMemory>
    ensures { IfOk result (IsPlain reply_no_memory) }
{
    plain(alloc, Reply::NoMemory)
}

/// The answer where nothing was gathered, by whether the client itself runs what can't be taken.
pub(crate) fn refuse_gathering(
    alloc: Global,
    fault: GatherFault,
    by_client: bool,
) -> Result<Answered, NoMemory>
    ensures { IfOk result (AnswersFault fault by_client) }
{
    match fault {
        GatherFault::NotRemotable { cause } => refuse_kept(alloc, cause, by_client),
        GatherFault::InputMissing { path } => plain(alloc, Reply::InputMissing { path }),
        GatherFault::InputChanged(input) => plain(alloc, Reply::InputChanged(input)),
        GatherFault::SourceFault { path } => plain(alloc, Reply::SourceFault { path }),
        GatherFault::TooLarge { limit, n, path } => {
            refuse_large(alloc, limit, n, path, by_client)
        }
        GatherFault::Blocked { path } => plain(alloc, Reply::Blocked { path }),
        GatherFault::NoMemory => Err(AllocError),
    }
}

/// The answer where this keeps the command on this machine, and there is no plan for that.
fn refuse_kept(alloc: Global, cause: LocalCause, by_client: bool) -> Result<Answered, NoMemory>
    ensures { IfOk result (AnswersFault (faults.NotRemotable cause) by_client) }
{
    if by_client {
        let cause = InPlaceCause::Kept { cause };
        return plain(alloc, Reply::InPlace { cause });
    }
    plain(alloc, Reply::NotRemotable { cause })
}

/// The answer where the command's files pass a limit.
fn refuse_large(
    alloc: Global,
    limit: Limit,
    n: u64,
    path: Option<RelPath>,
    by_client: bool,
) -> Result<Answered, NoMemory>
    ensures { IfOk result (AnswersFault (faults.TooLarge limit n path) by_client) }
{
    if by_client {
        let cause = InPlaceCause::TooLarge { limit };
        return plain(alloc, Reply::InPlace { cause });
    }
    plain(alloc, Reply::TooLarge { limit, n, path })
}

/// The answer where nothing is published: that the race was cancelled, or else how its attempts failed.
pub(crate) fn answer_unpublished(
    alloc: Global,
    cancelled: Option<CancelReason>,
    ends: &[Ended],
) -> Result<Answered, NoMemory>
    ensures { IfOk result (IsUnpublishedEnd cancelled ends.now) }
{
    match cancelled {
        Some(reason) => plain(alloc, Reply::Cancelled { reason }),
        None => fail(alloc, ends),
    }
}

/// The answer where no attempt has an outcome that is published. An end that is want of memory is
/// answered as such.
fn fail(alloc: Global, ends: &[Ended]) -> Result<Answered, NoMemory>
    ensures { IfOk result (IsFailure ends.now) }
{
    let failures = failures_of(alloc, ends)?;
    plain(alloc, Reply::AllFailed { failures })
}

/// What a reply tells of these ends.
fn failures_of(alloc: Global, ends: &[Ended]) -> Result<Items<Failure>, NoMemory>
    ensures failures { IfOk result (λ failures. failures ≡ flat_map failure_of ends.now) }
    ensures tellable { OnOk result (AreTellable ends.now) }
{
    let mut failures = Items::new(alloc);
    for end in ends {
        push_failure(alloc, &mut failures, end)?;
    }
    Ok(failures)
}

/// Adds what a reply tells of an end.
fn push_failure(alloc: Global, failures: &mut Items<Failure>, end: &Ended) -> Result<(), NoMemory>
    ensures failures { OnOk result (failures.new ≡ failures.old ++ failure_of end.now) }
    ensures tellable { OnOk result (IsTellable end.now) }
{
    match end {
        Ended::Local {
            end: End::Done {
                outcome: _,
                origin: _,
            },
        } => Ok(()),
        Ended::Local {
            end: End::Failed {
                cause: Cause::NoMemory,
            },
        } => Err(AllocError),
        Ended::Local {
            end: End::Failed { cause },
        } => {
            let cause = cause.try_clone(alloc)?;
            failures.push(Failure::Local { cause })?;
            Ok(())
        }
        Ended::Remote {
            end: End::Done { outcome, origin: _ },
        } => {
            failures.push(Failure::NonZero { exit: outcome.code })?;
            Ok(())
        }
        Ended::Remote {
            end: End::Failed {
                cause: RemoteCause::NoMemory,
            },
        } => Err(AllocError),
        Ended::Remote {
            end: End::Failed { cause },
        } => {
            let cause = cause.try_clone(alloc)?;
            failures.push(Failure::Remote { cause })?;
            Ok(())
        }
    }
}
