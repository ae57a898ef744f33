//! The names in a directory, by list.

ghost use Rattle.std.specs.Prelude.{◌≡◌, ◌++◌, Bool, IfOk, OnOk, ℕ, List, map};
ghost use Rattle.std.specs.List.{list_all};
ghost use Rattle.std.specs.Ordering.{is_lt, nat_cmp};
ghost use Rattle.std.specs.Cmp.Lexicographic.{slice_cmp};
ghost use Rattle.rx_base.specs.SortedPaths.{sorted_once};
ghost use Rattle.rx_messages.specs.Names.{are_distinct, are_sorted, entries_hold, entry_holds, is_name, lacks};

use rx_base::{NoMemory, Text, TryClone};
use std::alloc::Global;

/// What has a name in a directory.
pub(crate) trait Entry {
    ghost name: { Self → List ℕ };

    /// Whether it has its digest, where it needs one.
    ghost is_whole: { Self → Bool };

    fn name(&self) -> &Text
        ensures { result.now ≡ name self.now };

    fn is_whole(&self) -> bool
        ensures { result ≡ is_whole self.now };
}

/// Whether a list is sorted, and each entry has a name and its digest.
#[tactic(auto, unfolding(crate::specs::Names::entries_hold))]
pub(crate) fn entries_hold<T: Entry>(entries: &[T]) -> bool
    ensures { result ≡ entries_hold T.name T.is_whole entries.now }
{
    if !are_sorted(entries) {
        return false;
    }
    each_holds(entries)
}

fn each_holds<T: Entry>(entries: &[T]) -> bool
    ensures { result ≡ list_all (λ entry. entry_holds T.name T.is_whole entry) entries.now }
{
    for entry in entries {
        if !entry_holds(entry) {
            return false;
        }
    }
    true
}

fn entry_holds<T: Entry>(entry: &T) -> bool
    ensures { result ≡ entry_holds T.name T.is_whole entry.now }
{
    if !is_name(entry.name().as_str()) {
        return false;
    }
    entry.is_whole()
}

/// Whether each name is below the next one.
fn are_sorted<T: Entry>(entries: &[T]) -> bool
    ensures { result ≡ are_sorted (map T.name entries.now) }
{
    let last = entries.len().saturating_sub(1);
    let mut i = 0;
    while i < last {
        if !is_below(&entries[i], &entries[i + 1]) {
            return false;
        }
        i += 1;
    }
    true
}

/// Whether the name of an entry is below that of another.
fn is_below<T: Entry>(entry: &T, other: &T) -> bool
    ensures { result ≡ is_lt (slice_cmp nat_cmp (T.name entry.now) (T.name other.now)) }
{
    entry.name().cmp(other.name()).is_lt()
}

/// Whether a text may name an entry of a directory.
#[tactic(auto, unfolding(crate::specs::Names::is_name))]
fn is_name(text: &str) -> bool
    ensures { result ≡ is_name text.now }
{
    !text.is_empty() && text != "." && text != ".." && lacks(b'/', text) && lacks(0, text)
}

/// Whether a byte isn't in a text.
fn lacks(byte: u8, text: &str) -> bool
    ensures { result ≡ lacks byte text.now }
{
    !text.as_bytes().contains(&byte)
}

/// Puts copies of the names at the end.
pub(crate) fn push_names<T: Entry>(
    alloc: Global,
    names: &mut Vec<Text>,
    entries: &[T],
) -> Result<(), NoMemory>
    ensures { OnOk result (names.new.items ≡ names.old.items ++ map T.name entries.now) }
{
    for entry in entries {
        names.push(entry.name().try_clone(alloc)?)?;
    }
    Ok(())
}

/// Whether no two names are equal.
#[tactic(auto, unfolding(crate::specs::Names::are_distinct))]
pub(crate) fn are_distinct(names: Vec<Text>) -> Result<bool, NoMemory>
    ensures { IfOk result (λ distinct. distinct ≡ are_distinct names.items) }
{
    let count = names.as_slice().len();
    let once = sort_once(names)?;
    Ok(once.as_slice().len() == count)
}

/// The names in the order of their bytes, each once.
fn sort_once(names: Vec<Text>) -> Result<Vec<Text>, NoMemory>
    ensures { IfOk result (λ once. once.items ≡ sorted_once (slice_cmp nat_cmp) names.items) }
{
    let mut names = names;
    names.sort()?;
    names.dedup();
    Ok(names)
}
