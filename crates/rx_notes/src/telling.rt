//! A thread that tells reporters what comes by a line, and the end of that.

ghost use Rattle.std.specs.Prelude.{◌≡◌, ◌++◌, [], List, Some, false, true};
ghost use Rattle.crossbeam_queue.specs.Passes.{IsPassOf, view};
ghost use Rattle.rx_notes.specs.Relay.{IsOfLine, IsOfTelling, part};
ghost use Rattle.rx_report.specs.Told.{AreTold};
ghost use Rattle.rx_report.specs.declared.notes.Note.{Note};

use crate::line::{NoteLine, NotePass};
use crate::relays::{Taking, Took};
use crate::sender::{NoteSender, send};
use crate::work::Work;
use rx_report::{Note, Reporter, tell};
use std::snapshot::Snapshot;
use std::sync::Wait;
use std::thread::{Promise, Scope, Threads};

/// The reporters, and the right to take what is to be told them.
#[derive(Drop)]
pub struct Told<T: Reporter> {
    pass: NotePass,
    list: Vec<T>,
}

/// The promise that the reporters were told all that was taken.
#[derive(Drop)]
pub struct Tells<T: Reporter> {
    list: Snapshot<Vec<T>>,
    line: Snapshot<NoteLine>,
}

impl<T: Reporter> Promise<Told<T>> for Tells<T> {
    ghost use Rattle.std.specs.Prelude.{◌≡◌, List, [], true, false};
    ghost use Rattle.crossbeam_queue.specs.Passes.{IsPassOf, view as knows};
    ghost use Rattle.rx_notes.specs.Relay.{part};
    ghost use Rattle.rx_report.specs.Told.{AreTold};
    ghost use Rattle.rx_report.specs.declared.notes.Note.{Note};

    ghost kept_by = { λ p r. IsPassOf p.line.value.queue r.pass
        × (told : List Note) × (knows r.pass ≡ part false true [] told)
        × AreTold T.seen told p.list.value.items r.list.items };
}

/// Reporters that are told what comes by a line.
#[derive(Drop)]
pub struct Telling<T: Reporter> {
    work: Work<Told<T>, Tells<T>>,
}

/// Tells the reporters what comes, up to the mark of the end.
fn tell_coming<T: Reporter, R: Wait>(
    rt: &R,
    line: &NoteLine,
    pass: NotePass,
    list: Vec<T>,
) -> Told<T>
    requires queue { IsPassOf line.now.queue pass }
    requires takes { view pass ≡ part false true [] [] }
    ensures queue { IsPassOf line.now.queue result.pass }
    ensures told { (told : List Note) × (view result.pass ≡ part false true [] told)
        × AreTold T.seen told list.items result.list.items }
{
    let mut pass = pass;
    let mut list = list;
    for _ in rt.forever() {
        let sent = line.sent();
        match line.queue.try_pop_as::<Took>(&mut pass) {
            Some(Some(note)) => {
                line.tell_taken();
                tell(&mut list, &note);
            }
            Some(None) => break,
            None => line.wait_sent(rt, sent),
        }
    }
    Told { pass, list }
}

/// The same, unless nobody is heard.
fn tell_where_heard<T: Reporter, R: Wait>(
    rt: &R,
    line: &NoteLine,
    pass: NotePass,
    list: Vec<T>,
) -> Told<T>
    requires queue { IsPassOf line.now.queue pass }
    requires takes { view pass ≡ part false true [] [] }
    ensures queue { IsPassOf line.now.queue result.pass }
    ensures told { (told : List Note) × (view result.pass ≡ part false true [] told)
        × AreTold T.seen told list.items result.list.items }
{
    if !line.is_heard() {
        return Told { pass, list };
    }
    tell_coming(rt, line, pass, list)
}

/// Tells the reporters what is left. That is then all that was sent.
fn tell_rest<T: Reporter, R: Wait>(rt: &R, line: &NoteLine, pass: NotePass, list: Vec<T>) -> Vec<T>
    requires queue { IsPassOf line.now.queue pass }
    requires sends { (view pass).sends ≡ true }
    requires takes { (view pass).takes ≡ true }
    ensures told { (more : List Note) × AreTold T.seen more list.items result.items
        × ((view pass).sent ≡ (view pass).got ++ more) }
{
    let mut pass = pass;
    let mut list = list;
    for _ in rt.forever() {
        match line.queue.pop_as::<Took, R>(rt, &mut pass) {
            Some(Some(note)) => tell(&mut list, &note),
            Some(None) => (),
            None => return list,
        }
    }
    unreachable!()
}

/// Begins to tell these reporters what a sender sends, in a thread of a scope, if there are any. Where there are none,
/// and where no thread can be started, nothing is sent, and they are told nothing.
pub fn begin<'s, E, T: Reporter + 's, R: Wait + Sync + 's>(
    scope: &Scope<'s, E>,
    rt: &'s R,
    line: &'s NoteLine,
    pass: NotePass,
    reporters: Vec<T>,
) -> (NoteSender, Telling<T>)
    requires queue { IsPassOf line.now.queue pass }
    requires first { view pass ≡ part true true [] [] }
    ensures sender { IsOfLine line.now.queue.table.shared.table_id result.0 }
    ensures telling { IsOfTelling line.now.queue.table.shared.table_id reporters.items
        result.1.work.line.value.queue.table.shared.table_id result.1.work.list.value.items }
{
    let is_needed = !reporters.is_empty();
    let mut pass = pass;
    let reader = line.queue.another::<Taking>(&mut pass);
    let promise = Tells {
        list: Snapshot::of(&reporters),
        line: Snapshot::of(line),
    };
    let work = Work::begin(
        scope,
        promise,
        line,
        is_needed,
        move || -> Told<T>
            requires queue { IsPassOf line.now.queue reader }
            requires takes { view reader ≡ part false true [] [] }
            ensures queue { IsPassOf line.entry.now.queue result.pass }
            ensures told { (told : List Note) × (view result.pass ≡ part false true [] told)
                × AreTold T.seen told reporters.items result.list.items }
        { tell_where_heard::<T, R>(rt, line, reader, reporters) },
    );
    let sender = NoteSender {
        queued: work.is_there(),
        pass,
    };
    (sender, Telling { work })
}

/// Sends the mark of the end, where there is a thread that takes it.
fn mark_end<R: Wait>(rt: &R, line: &NoteLine, queued: bool, pass: NotePass) -> NotePass
    requires queue { IsPassOf line.now.queue pass }
    requires may { (view pass).sends ≡ true }
    ensures queue { IsPassOf line.now.queue result }
    ensures same { view result ≡ view pass }
{
    if !queued {
        return pass;
    }
    let mut pass = pass;
    send(rt, line, &mut pass, None);
    pass
}

/// Waits until the reporters were told all that the sender took, and hands them back. One that refused a note isn't among
/// them.
pub fn finish<T: Reporter, R: Threads + Wait>(
    rt: &R,
    line: &NoteLine,
    sender: NoteSender,
    telling: Telling<T>,
) -> Vec<T>
    requires sender { line.now.queue.table.shared.table_id ≡ sender.table }
    requires telling { line.now.queue.table.shared.table_id
        ≡ telling.work.line.value.queue.table.shared.table_id }
    ensures { AreTold T.seen sender.sent telling.work.list.value.items result.items }
{
    let NoteSender { queued, pass } = sender;
    let Telling { work } = telling;
    let mut pass = mark_end(rt, line, queued, pass);
    let Told { pass: reader, list } = work.join(rt);
    line.queue.absorb::<Taking>(&mut pass, reader);
    tell_rest(rt, line, pass, list)
}
