//! The queue, and who waits at its ends.

ghost use Rattle.std.specs.Prelude.{◌≡◌, [], IfOk, true};
ghost use Rattle.crossbeam_queue.specs.Passes.{IsPassOf, view};
ghost use Rattle.rx_notes.specs.Relay.{part};

use crate::relays::{Part, Relays};
use crossbeam_queue::{Pass, RuledArrayQueue};
use rx_report::Note;
use std::alloc::{AllocError, Global};
use std::sync::Wait;
use std::sync::atomic::{AtomicBool, AtomicU64, Ordering};

/// How many notes wait to be told at most. Who sends one more waits until there is room.
const MOST_WAITING: usize = 1024;

/// The right to send to a line, or to take from it, and what is known of it by that.
pub type NotePass = Pass<Option<Note>, Part>;

pub(crate) type Queue = RuledArrayQueue<Option<Note>, Part, Relays>;

/// A queue of notes, and of the mark of its end. Nobody who waits at it spins.
#[derive(Drop)]
pub struct NoteLine {
    pub(crate) queue: Queue,
    /// How often something was sent, and taken: who waits for the one sleeps until it changes.
    sent: AtomicU64,
    taken: AtomicU64,
    /// Whether there is a thread that takes.
    is_heard: AtomicBool,
}

impl NoteLine {
    /// An empty line, and the one pass of it, which may send and take. Where nobody will be told, it has room for one
    /// note.
    pub fn new(alloc: Global, is_needed: bool) -> Result<(NoteLine, NotePass), AllocError>
        ensures queue { IfOk result (λ made. IsPassOf made.0.queue made.1) }
        ensures first { IfOk result (λ made. view made.1 ≡ part true true [] []) }
    {
        let (queue, pass) = Queue::ruled(alloc, if is_needed { MOST_WAITING } else { 1 })?;
        let line = NoteLine {
            queue,
            sent: AtomicU64::new(0),
            taken: AtomicU64::new(0),
            is_heard: AtomicBool::new(true),
        };
        Ok((line, pass))
    }

    /// How often something was sent.
    pub(crate) fn sent(&self) -> u64 {
        self.sent.load(Ordering::SeqCst)
    }

    /// How often something was taken.
    pub(crate) fn taken(&self) -> u64 {
        self.taken.load(Ordering::SeqCst)
    }

    /// Something was sent.
    pub(crate) fn tell_sent(&self) {
        self.sent.fetch_add(1, Ordering::SeqCst);
        self.sent.wake_all();
    }

    /// Something was taken.
    pub(crate) fn tell_taken(&self) {
        self.taken.fetch_add(1, Ordering::SeqCst);
        self.taken.wake_all();
    }

    /// Waits until something more was sent than had been by then.
    pub(crate) fn wait_sent(&self, rt: &impl Wait, by_then: u64) {
        self.sent.park(rt, (by_then & 0xffff_ffff) as u32);
    }

    /// Waits until something more was taken than had been by then.
    pub(crate) fn wait_taken(&self, rt: &impl Wait, by_then: u64) {
        self.taken.park(rt, (by_then & 0xffff_ffff) as u32);
    }

    /// There is no thread that takes.
    pub(crate) fn give_up(&self) {
        self.is_heard.store(false, Ordering::SeqCst);
    }

    /// Whether there is a thread that takes.
    pub(crate) fn is_heard(&self) -> bool {
        self.is_heard.load(Ordering::SeqCst)
    }
}
