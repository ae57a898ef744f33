//! What standard error tells of a session: why its attempts failed, why its client runs its step itself, and that its client
//! wasn't heard or got no reply.

use crate::local_words::local_in_words;
use crate::remote_words::remote_in_words;
use crate::reply_words::reply_in_words;
use rx_daemon::Log;
use rx_engine::{Ending, Transcript};
use rx_host::FarmShare;
use rx_session::{Reply, SHUTDOWN};
use rx_world::{BenchStep, Cause, End, Ended, RemoteCause};
use std::alloc::{AllocError, Global};

/// Tells of each session as it ends. Where one was asked to end the run, the sessions that go on hear that.
#[derive(Drop)]
pub(crate) struct HostLog<'a> {
    pub(crate) rt: HostRuntime,
    pub(crate) farm_share: &'a FarmShare,
}

impl<'a> Log for HostLog<'a> {
    fn hear(&self, transcript: &Transcript) {
        tell_session(&self.rt, transcript);
        if transcript.read.as_slice() == SHUTDOWN.as_slice() {
            self.farm_share.close();
        }
    }
}

/// Tells of sessions, with lines for each.
pub(crate) fn tell_sessions(rt: &HostRuntime, transcripts: &[Transcript]) {
    for transcript in transcripts {
        tell_session(rt, transcript);
    }
}

/// Tells why attempts of a session failed or its client runs its step, and how it ended where its client got no reply.
fn tell_session(rt: &HostRuntime, transcript: &Transcript) {
    let number = transcript.number;
    let is_given_up = is_local_given_up(transcript);
    for ended in transcript.ends.as_slice() {
        if is_given_up && is_run_fault(ended) {
            continue;
        }
        if let Ok(Some(words)) = end_in_words(rt.alloc(), ended) {
            let _ = eprintln!(rt; "reproxy: session {number}: {words}");
        }
    }
    if let Some(reply) = &transcript.reply {
        if let Ok(Some(words)) = reply_in_words(rt.alloc(), reply) {
            let _ = eprintln!(rt; "reproxy: session {number}: {words}");
        }
    }
    if let Some(words) = ending_in_words(transcript) {
        let _ = eprintln!(rt; "reproxy: session {number}: {words}");
    }
}

/// Whether nobody waits for the local attempt any more: the remote one won before it ended, or the client gave its request up.
fn is_local_given_up(transcript: &Transcript) -> bool {
    if let Some(Reply::Cancelled { reason: _ }) = &transcript.reply {
        return true;
    }
    matches!(
        transcript.ends.as_slice().first(),
        Some(Ended::Remote {
            end: End::Done { .. },
        },)
    )
}

/// Whether a local attempt failed as its command ran, as it does where the wait for the command is ended.
fn is_run_fault(ended: &Ended) -> bool {
    match ended {
        Ended::Local {
            end: End::Failed { cause },
        } => is_of_run(cause),
        _ => false,
    }
}

/// Whether the command couldn't be run.
fn is_of_run(cause: &Cause) -> bool {
    match cause {
        Cause::BenchFault { step } => *step == BenchStep::Run,
        _ => false,
    }
}

/// Why an attempt failed. One that was stopped, since the other one won or nobody wants it any more,
/// didn't fail.
fn end_in_words(alloc: Global, ended: &Ended) -> Result<Option<String>, AllocError> {
    match ended {
        Ended::Local {
            end: End::Failed {
                cause: Cause::Stopped { decision: _ },
            },
        } => Ok(None),
        Ended::Local {
            end: End::Failed { cause },
        } => told(alloc, "local", local_in_words(alloc, cause)),
        Ended::Remote {
            end: End::Failed {
                cause: RemoteCause::Stopped { decision: _ },
            },
        } => Ok(None),
        Ended::Remote {
            end: End::Failed { cause },
        } => told(alloc, "remote", remote_in_words(alloc, cause)),
        _ => Ok(None),
    }
}

/// Where an attempt was made, and why it failed.
fn told(
    alloc: Global,
    place: &str,
    words: Result<String, AllocError>,
) -> Result<Option<String>, AllocError> {
    let words = words?;
    Ok(Some(format!(in alloc; "{place}: {words}")?))
}

/// How a session ended whose client got no reply, or not all of it. A client that said nothing, and went, misses none: so does
/// one that only ends the wait for the next client, once the run is to end.
fn ending_in_words(transcript: &Transcript) -> Option<&'static str> {
    match transcript.ending {
        Ending::Replied | Ending::ShutDown => None,
        Ending::SinkLost if transcript.read.as_slice().is_empty() => None,
        Ending::SourceLost => Some("its request couldn't be read"),
        Ending::SinkLost => Some("its reply couldn't be written"),
        Ending::NoMemory => Some("memory ran out for its reply"),
    }
}
