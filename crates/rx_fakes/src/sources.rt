//! Source trees in memory.

ghost use Rattle.std.specs.Prelude.{◌≡◌, ◌++◌, ◌∷◌, [], Contains, IfOk, None, OnErr, OnOk, Some, filter, is_some, length};
ghost use Rattle.rx_world.specs.declared.failures.Refused.TheVariants.{Failed as failed};
ghost use Rattle.rx_world.specs.Causes.{HasCause, HasCauseOf};
ghost use Rattle.rx_world.specs.Sources.{GivesContent, HasBytes, HoldContent, Lists, Looks, Reads, given_all, given_bytes, given_look};

use crate::told::{tell, tell_all};
use crate::{Script, SourceEntries};
use rx_base::{Bytes, Items, RelPath, TryClone};
use rx_world::{Contents, Failed, Found, Given, Look, Refused, Sources, Toy};
use std::alloc::Global;

/// When a source tree changes: behind the call at which this comes true.
#[derive(Debug, Drop)]
pub enum When {
    /// So many calls were made.
    AfterCalls(u64),
    /// This path was looked at.
    AfterLook(RelPath),
}

/// What a source tree becomes, and when.
#[derive(Drop)]
pub struct Change<K: Contents> {
    pub when: When,
    pub entries: SourceEntries<K>,
}

/// A source tree that may change once, and what its calls answered. In calls that answer `Failed`
/// alone, want of memory is a counted fault.
#[derive(Drop)]
pub struct MemorySources<K: Contents> {
    pub alloc: Global,
    pub entries: SourceEntries<K>,
    pub change: Option<Change<K>>,
    /// The paths at which each look and each read fails.
    pub broken: Vec<RelPath>,
    pub given: Items<Given>,
    pub script: Script,
}

impl<K: Contents> MemorySources<K> {
    /// A source tree of which no call was made, and in which no path is broken.
    pub fn new(
        alloc: Global,
        entries: SourceEntries<K>,
        change: Option<Change<K>>,
        script: Script,
    ) -> MemorySources<K>
        ensures entries { result.entries ≡ entries }
        ensures change { result.change ≡ change }
        ensures broken { result.broken.items ≡ [] }
        ensures given { result.given ≡ [] }
        ensures script { result.script ≡ script }
    {
        MemorySources {
            alloc,
            entries,
            change,
            broken: Vec::new(alloc),
            given: Items::new(alloc),
            script,
        }
    }

    /// How many reads were answered.
    pub fn reads(&self) -> usize
        ensures { result ≡ length (filter (λ answer. is_some answer.bytes) self.now.given) }
    {
        let mut count = 0;
        for answer in self.given.as_slice() {
            if answer.bytes.is_some() {
                count += 1;
            }
        }
        count
    }

    /// Counts a call. It fails where its script says so, and at a broken path.
    fn call_at(&mut self, path: &RelPath) -> Result<(), Failed>
        ensures entries { self.new.entries ≡ self.old.entries }
        ensures change { self.new.change ≡ self.old.change }
        ensures given { self.new.given ≡ self.old.given }
        ensures broken { OnOk result (Contains self.old.broken.items path.now → ⊥) }
        ensures cause { HasCause self.old.script.faults self.new.script.faults result }
    {
        self.script.call()?;
        if self.broken.contains(path) {
            return Err(self.script.fault());
        }
        Ok(())
    }

    /// Swaps the change in where it is due behind a call, which was a look at a path or another one.
    fn swap_change_due(&mut self, looked: Option<&RelPath>)
        ensures given { self.new.given ≡ self.old.given }
        ensures script { self.new.script ≡ self.old.script }
        ensures kept { self.old.change ≡ None →
            (self.new.change ≡ None) × (self.new.entries ≡ self.old.entries) }
        ensures holds { K.honest → HoldContent K.holds self.new.entries }
    {
        let due = take_due(&mut self.change, self.script.calls, looked);
        self.entries.change_to(due);
    }

    fn look_now(&mut self, path: &RelPath) -> Result<Look, Failed>
        ensures look { IfOk result (Looks (Some self.old.entries) path.now) }
        ensures entries { self.new.entries ≡ self.old.entries }
        ensures change { self.new.change ≡ self.old.change }
        ensures given { IfOk result (λ look.
            self.new.given ≡ self.old.given ++ given_look path.now look ∷ []) }
        ensures failed { OnErr result (self.new.given ≡ self.old.given) }
        ensures cause { HasCause self.old.script.faults self.new.script.faults result }
    {
        self.call_at(path)?;
        let look = self.entries.look(path);
        match tell(self.alloc, &mut self.given, path, look, None) {
            Ok(()) => Ok(look),
            Err(_) => Err(self.script.fault()),
        }
    }

    fn read_now(&mut self, path: &RelPath) -> Result<(Look, Bytes), Refused>
        ensures read { IfOk result (λ read. Reads (Some self.old.entries) path.now read.0 read.1) }
        ensures bytes { IfOk result (λ read. HasBytes read.0 read.1) }
        ensures honest { IfOk result (λ read. K.honest →
            GivesContent K.holds path.now read.0 read.1) }
        ensures entries { self.new.entries ≡ self.old.entries }
        ensures change { self.new.change ≡ self.old.change }
        ensures given { IfOk result (λ read.
            self.new.given ≡ self.old.given ++ given_bytes path.now read.0 read.1 ∷ []) }
        ensures failed { OnErr result (self.new.given ≡ self.old.given) }
        ensures cause { HasCauseOf failed self.old.script.faults self.new.script.faults result }
    {
        self.call_at(path)?;
        let (look, bytes) = self.entries.read(self.alloc, path)?;
        let copy = bytes.try_clone(self.alloc)?;
        tell(self.alloc, &mut self.given, path, look, Some(copy))?;
        Ok((look, bytes))
    }

    fn list_now(&mut self, under: &RelPath, most: usize) -> Result<Items<Found>, Refused>
        ensures list { IfOk result (Lists (Some self.old.entries) under.now most) }
        ensures entries { self.new.entries ≡ self.old.entries }
        ensures change { self.new.change ≡ self.old.change }
        ensures given { IfOk result (λ found. self.new.given ≡ self.old.given ++ given_all found) }
        ensures failed { OnErr result (self.new.given ≡ self.old.given) }
        ensures cause { HasCauseOf failed self.old.script.faults self.new.script.faults result }
    {
        self.script.call()?;
        let found = self.entries.list(self.alloc, under, most)?;
        tell_all(self.alloc, &mut self.given, found.as_slice())?;
        Ok(found)
    }
}

impl<K: Contents> Sources<Toy<K>> for MemorySources<K> {
    ghost listed = { λ s. Some s.entries };

    ghost keeps = { λ s. s.change ≡ None };

    ghost given = { λ s. Some s.given };

    ghost faults = { λ s. s.script.faults };

    fn look(&mut self, path: &RelPath) -> Result<Look, Failed> {
        let answer = self.look_now(path);
        self.swap_change_due(Some(path));
        answer
    }

    fn read(&mut self, path: &RelPath) -> Result<(Look, Bytes), Refused> {
        let answer = self.read_now(path);
        self.swap_change_due(None);
        answer
    }

    fn list(&mut self, under: &RelPath, most: usize) -> Result<Items<Found>, Refused> {
        let answer = self.list_now(under, most);
        self.swap_change_due(None);
        answer
    }
}

/// Takes the entries of a change that is due.
fn take_due<K: Contents>(
    change: &mut Option<Change<K>>,
    calls: u64,
    looked: Option<&RelPath>,
) -> Option<SourceEntries<K>>
    ensures none { change.old ≡ None → (result ≡ None) × (change.new ≡ None) }
{
    let next = change.take()?;
    if is_due(&next.when, calls, looked) {
        return Some(next.entries);
    }
    *change = Some(next);
    None
}

fn is_due(when: &When, calls: u64, looked: Option<&RelPath>) -> bool {
    match when {
        When::AfterCalls(count) => *count <= calls,
        When::AfterLook(path) => looked == Some(path),
    }
}
