//! Whether a journal is that of its sessions, as it is looked up once at the close.

ghost use Rattle.std.specs.Prelude.{◌≡◌, ◌≢◌, ◌≤◌, false, true};
ghost use Rattle.std.specs.List.{sum_by};
ghost use Rattle.rx_engine.specs.Journal.{files_of};
ghost use Rattle.rx_daemon.specs.Agreeing.{Agrees, IsToldIn, TellsOf, placed_in, receipts_in, receipts_of};
ghost use Rattle.rx_daemon.specs.Threads.{transcripts_of};

use crate::served::ServedDesk;
use rx_board::{Entry, Receipt};
use rx_engine::Transcript;
use rx_session::Reply;
use rx_world::{End, Ended, Listed};

/// How many receipts a session has.
fn receipts_in(receipt: Option<Receipt>) -> usize
    ensures value { result ≡ receipts_in receipt }
    ensures bound { result ≤ 1 }
{
    match receipt {
        None => 0,
        Some(_) => 1,
    }
}

/// How many receipts the sessions have.
fn receipts<D>(served: &[ServedDesk<D>]) -> usize
    ensures { result ≡ sum_by receipts_of (transcripts_of served.now) }
{
    let mut count = 0;
    for i in 0..served.len() {
        count += receipts_in(served[i].transcript.receipt);
    }
    count
}

/// How many files were placed, where the reply tells that.
fn placed_in(reply: &Option<Reply>) -> Option<u64>
    ensures { result ≡ placed_in reply.now }
{
    match reply {
        Some(Reply::Done { placed, .. }) => Some(*placed),
        Some(Reply::PlaceFault { placed, .. }) => Some(*placed),
        _ => None,
    }
}

/// The files of the first outcome among these ends.
fn files_of(ends: &[Ended]) -> &[Listed]
    ensures { result.now ≡ files_of ends.now }
{
    let mut rest = ends;
    while let Some((end, others)) = rest.split_first() {
        match end {
            Ended::Local {
                end: End::Done { outcome, .. },
            } => return outcome.files.as_slice(),
            Ended::Remote {
                end: End::Done { outcome, .. },
            } => return outcome.files.as_slice(),
            _ => rest = others,
        }
    }
    &[]
}

/// Whether two files are one: by path, digest and mark.
fn is_same_file(first: &Listed, second: &Listed) -> bool
    ensures same { result ≡ true → first.now ≡ second.now }
    ensures differs { result ≡ false → first.now ≢ second.now }
{
    first.path == second.path
        && first.digest == second.digest
        && first.executable == second.executable
}

/// Whether two lists of files are one.
fn is_same_listing(first: &[Listed], second: &[Listed]) -> bool
    ensures same { result ≡ true → first.now ≡ second.now }
    ensures differs { result ≡ false → first.now ≢ second.now }
{
    if first.len() != second.len() {
        return false;
    }
    for i in 0..first.len() {
        if !is_same_file(&first[i], &second[i]) {
            return false;
        }
    }
    true
}

/// Whether a session tells of an entry.
fn tells_of(entry: &Entry, transcript: &Transcript) -> bool
    ensures same { result ≡ true → TellsOf entry.now transcript.now }
    ensures differs { result ≡ false → TellsOf entry.now transcript.now → ⊥ }
{
    let number = entry.number;
    if transcript.number != entry.session || transcript.receipt != Some(Receipt { number }) {
        return false;
    }
    if placed_in(&transcript.reply) != Some(entry.placed) {
        return false;
    }
    is_same_listing(files_of(transcript.ends.as_slice()), entry.files.as_slice())
}

/// Whether the session that an entry names tells of it.
fn is_told<D>(entry: &Entry, served: &[ServedDesk<D>]) -> bool
    ensures same { result ≡ true → IsToldIn (transcripts_of served.now) entry.now }
    ensures differs { result ≡ false → IsToldIn (transcripts_of served.now) entry.now → ⊥ }
{
    match served.get((entry.session as usize).saturating_sub(1)) {
        Some(s) => tells_of(entry, &s.transcript),
        None => false,
    }
}

/// Whether there are as many entries as receipts, and each has the next number and is told by the session
/// that it names.
pub(crate) fn agrees<D>(journal: &[Entry], served: &[ServedDesk<D>]) -> bool
    ensures same { result ≡ true → Agrees journal.now (transcripts_of served.now) }
    ensures differs { result ≡ false → Agrees journal.now (transcripts_of served.now) → ⊥ }
{
    if receipts(served) != journal.len() {
        return false;
    }
    for i in 0..journal.len() {
        if journal[i].number != i as u64 + 1 || !is_told(&journal[i], served) {
            return false;
        }
    }
    true
}
