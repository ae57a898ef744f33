//! Who sends notes.

ghost use Rattle.std.specs.Prelude.{◌≡◌, true};
ghost use Rattle.crossbeam_queue.specs.Passes.{IsPassOf, view};
ghost use Rattle.rx_notes.specs.Relay.{took, with_sent};

use crate::line::{NoteLine, NotePass};
use crate::relays::Sent;
use rx_report::Note;
use std::marker::Model;
use std::sync::Wait;

/// Sends a message, and waits while the line is full.
pub(crate) fn send<R: Wait>(rt: &R, line: &NoteLine, pass: &mut NotePass, message: Option<Note>)
    requires queue { IsPassOf line.now.queue pass.old }
    requires may { (view pass.old).sends ≡ true }
    ensures queue { IsPassOf line.now.queue pass.new }
    ensures sent { view pass.new ≡ with_sent (view pass.old) message }
{
    for _ in rt.forever() {
        let taken = line.taken();
        if line.queue.try_push_as::<Sent>(pass, message).is_ok() {
            line.tell_sent();
            return;
        }
        line.wait_taken(rt, taken);
    }
    unreachable!()
}

/// Sends notes, where there is a thread that takes them out again. Else it does nothing.
#[derive(Drop)]
pub struct NoteSender {
    pub(crate) queued: bool,
    pub(crate) pass: NotePass,
}

impl Model for NoteSender {
    ghost use Rattle.std.specs.Prelude.{◌≡◌, [], true, false};
    ghost use Rattle.crossbeam_queue.specs.Passes.{view as knows};
    ghost use Rattle.rx_notes.specs.Relay.{Sending, part};

    ghost Value = { Sending };

    ghost view = { λ s. record {
      queued = s.queued;
      table = s.pass.table_id;
      sent = (knows s.pass).sent;
    } };

    ghost invariant = { λ s. (s.pass.me.1 ≡ [])
        × (knows s.pass ≡ part true false (knows s.pass).sent [])
        × (s.queued ≡ false → (knows s.pass).sent ≡ []) };
}

impl NoteSender {
    /// Sends a note by the line that it is of, and waits while that is full.
    pub fn take<R: Wait>(&mut self, rt: &R, line: &NoteLine, note: Note)
        requires line { line.now.queue.table.shared.table_id ≡ self.old.table }
        ensures { self.new ≡ took self.old note }
    {
        if self.queued {
            send(rt, line, &mut self.pass, Some(note));
        }
    }

    /// Whether there is a thread that takes what is sent.
    pub fn is_queued(&self) -> bool
        ensures { result ≡ self.now.queued }
    {
        self.queued
    }
}
