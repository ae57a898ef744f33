//! The entries of a list of paths: each path split into its names once, and the order of the names.

ghost use Rattle.std.specs.Prelude.{◌≡◌, ◌<◌, ◌+◌, ◌^◌, ◌++◌, IfOk, IsSome, Some, drop, map, option_to_list, refl};
ghost use Rattle.std.specs.Cmp.{eq_by_cmp_equiv, partial_equiv_from_equiv, partial_order_from_total};
ghost use Rattle.std.specs.Ordering.{eq_by_cmp};
ghost use Rattle.std.specs.List.{AllByRecursion};
ghost use Rattle.std.specs.List.Sorted.{IsPermutation, IsSorted};
ghost use Rattle.rx_base.specs.Paths.{IsPath};
ghost use Rattle.rx_base.specs.Texts.{texts};
ghost use Rattle.rx_tree.specs.Entries.{dir_entry, entries_of, file_entry, names_of};
ghost use Rattle.rx_tree.specs.Listings.{IsDigest, IsEntry};
ghost use Rattle.rx_tree.specs.Places.{by_place, by_place_total};
ghost use Rattle.rx_tree.specs.Planting.{contents, goes_alike};
ghost use Rattle.rx_tree.specs.Refusals.{is_same_file, is_under, stands_under};
ghost use Rattle.rx_tree.specs.Search.{place};
ghost use Rattle.rx_tree.specs.Trees.{file_at_end, first_name};

use rx_base::{Digest, NoMemory, RelPath};
use rx_world::InputFile;
use std::alloc::Global;
use std::cmp::Ordering;
use std::marker::Model;

/// A path with its names, and the file there, or none where the path is a directory's.
#[derive(Drop)]
pub(crate) struct Entry<'a> {
    path: &'a RelPath,
    names: Vec<&'a str>,
    file: Option<&'a InputFile>,
}

impl<'a> Model for Entry<'a> {
    ghost use Rattle.std.specs.Prelude.{◌≡◌, option_map};
    ghost use Rattle.rx_base.specs.Texts.{texts};
    ghost use Rattle.rx_tree.specs.Entries.{Entry, content_of, names_of};

    ghost Value = { Entry };

    ghost view = { λ e. record { path = e.path.now; file = option_map (λ f. content_of f.now) e.file } };

    ghost invariant = { λ e. texts e.names.items ≡ names_of e.path.now };
}

/// The names on a path, from the root down; the root has none.
fn split_path(alloc: Global, path: &RelPath) -> Result<Vec<&str>, NoMemory>
    ensures names { IfOk result (λ names. texts names.items ≡ names_of path.now) }
    ensures path { IsPath path.now }
{
    let text = path.as_str();
    let mut names = Vec::new(alloc);
    if path.is_root() {
        return Ok(names);
    }
    for name in text.split('/') {
        names.push(name)?;
    }
    Ok(names)
}

/// The digest itself. Of one that is passed by value its clause can say what the type keeps: 32
/// bytes, and a size of 64 bits.
fn read_digest(digest: Digest) -> Digest
    ensures same { result ≡ digest }
    ensures sound { IsDigest digest }
{
    digest
}

impl<'a> Entry<'a> {
    /// The entry of a file.
    pub(crate) fn of_file(alloc: Global, file: &'a InputFile) -> Result<Entry<'a>, NoMemory>
        ensures entry { IfOk result (λ entry. entry ≡ file_entry file.now) }
        ensures sound { IfOk result (λ _. IsEntry (file_entry file.now)) }
    {
        // For what its clause says of the digest.
        let _digest = read_digest(file.digest);
        let names = split_path(alloc, &file.path)?;
        Ok(Entry {
            path: &file.path,
            names,
            file: Some(file),
        })
    }

    /// The entry of a directory.
    pub(crate) fn of_dir(alloc: Global, path: &'a RelPath) -> Result<Entry<'a>, NoMemory>
        ensures entry { IfOk result (λ entry. entry ≡ dir_entry path.now) }
        ensures sound { IfOk result (λ _. IsEntry (dir_entry path.now)) }
    {
        let names = split_path(alloc, path)?;
        Ok(Entry {
            path,
            names,
            file: None,
        })
    }

    /// The path.
    pub(crate) fn path(&self) -> &'a RelPath
        ensures { result.now ≡ self.now.path }
    {
        self.path
    }

    /// The name after so many others, or none where the path has no more.
    pub(crate) fn name(&self, depth: usize) -> Option<&'a str>
        ensures name { option_to_list (place result)
            ≡ first_name (drop depth (names_of self.now.path)) }
        ensures deeper { IsSome result → depth + 1 < 2 ^ 64 }
    {
        self.names.get(depth).copied()
    }

    /// Whether both paths go on by one name after so many, or neither goes on.
    pub(crate) fn goes_alike(&self, other: &Entry<'_>, depth: usize) -> bool
        ensures { result ≡ goes_alike
            (drop depth (names_of self.now.path)) (drop depth (names_of other.now.path)) }
    {
        match (self.name(depth), other.name(depth)) {
            (Some(name), Some(other)) => name == other,
            (None, None) => true,
            _ => false,
        }
    }

    /// The file of a path that has no more than so many names.
    pub(crate) fn file_after(&self, depth: usize) -> Option<&'a InputFile>
        ensures { contents result
            ≡ file_at_end (drop depth (names_of self.now.path)) self.now.file }
    {
        if self.names.len() <= depth {
            self.file
        } else {
            None
        }
    }

    /// Whether both are files and have one path.
    pub(crate) fn is_same_file(&self, other: &Entry<'_>) -> bool
        ensures { result ≡ is_same_file self.now other.now }
    {
        self.file.is_some() && other.file.is_some() && self.path == other.path
    }

    /// Whether this lies below a path, or is a directory and has the path.
    pub(crate) fn stands_under(&self, path: &RelPath) -> bool
        ensures { result ≡ stands_under path.now self.now }
    {
        self.path.is_below(path) || (self.file.is_none() && self.path == path)
    }

    /// Whether this is a file, and the other one lies below it, or is a directory and has its path.
    pub(crate) fn is_above(&self, other: &Entry<'_>) -> bool
        ensures { result ≡ is_under self.now other.now }
    {
        self.file.is_some() && other.stands_under(self.path)
    }
}

impl<'a> PartialEq for Entry<'a> {
    ghost eq = { eq_by_cmp by_place };

    ghost laws = { partial_equiv_from_equiv (eq_by_cmp_equiv by_place_total) };

    fn eq(&self, other: &Entry<'a>) -> bool {
        self.cmp(other).is_eq()
    }
}

impl<'a> Eq for Entry<'a> {
    ghost laws = { eq_by_cmp_equiv by_place_total };
}

impl<'a> PartialOrd for Entry<'a> {
    ghost partial_cmp = { λ x y. Some (by_place x y) };

    ghost laws = { partial_order_from_total by_place_total };

    fn partial_cmp(&self, other: &Entry<'a>) -> Option<Ordering> {
        Some(self.cmp(other))
    }
}

impl<'a> Ord for Entry<'a> {
    ghost cmp = { by_place };

    ghost total = { by_place_total };

    ghost matches_partial_cmp = { λ x y. refl };

    ghost matches_eq = { λ x y. refl };

    fn cmp(&self, other: &Entry<'a>) -> Ordering {
        let names = self.names.cmp(&other.names);
        names.then(self.file.is_none().cmp(&other.file.is_none()))
    }
}

/// The entries of these files and directories, by their names, each file before the directories
/// that have its path.
pub(crate) fn sort_entries<'a>(
    alloc: Global,
    files: &'a [InputFile],
    dirs: &'a [RelPath],
) -> Result<Vec<Entry<'a>>, NoMemory>
    ensures all { IfOk result (λ entries.
        IsPermutation (entries_of files.now dirs.now) entries.items) }
    ensures sorted { IfOk result (λ entries. IsSorted by_place entries.items) }
    ensures sound { IfOk result (λ _. AllByRecursion IsEntry (entries_of files.now dirs.now)) }
{
    let entries = with_files(Vec::new(alloc), alloc, files)?;
    let mut entries = with_dirs(entries, alloc, dirs)?;
    entries.sort()?;
    Ok(entries)
}

/// These entries, and then those of the files.
fn with_files<'a>(
    entries: Vec<Entry<'a>>,
    alloc: Global,
    files: &'a [InputFile],
) -> Result<Vec<Entry<'a>>, NoMemory>
    ensures all { IfOk result (λ all. all.items ≡ entries.entry.items ++ map file_entry files.now) }
    ensures sound { IfOk result (λ _. AllByRecursion IsEntry (map file_entry files.now)) }
{
    let mut entries = entries;
    for file in files {
        entries.push(Entry::of_file(alloc, file)?)?;
    }
    Ok(entries)
}

/// These entries, and then those of the directories.
fn with_dirs<'a>(
    entries: Vec<Entry<'a>>,
    alloc: Global,
    dirs: &'a [RelPath],
) -> Result<Vec<Entry<'a>>, NoMemory>
    ensures all { IfOk result (λ all. all.items ≡ entries.entry.items ++ map dir_entry dirs.now) }
    ensures sound { IfOk result (λ _. AllByRecursion IsEntry (map dir_entry dirs.now)) }
{
    let mut entries = entries;
    for dir in dirs {
        entries.push(Entry::of_dir(alloc, dir)?)?;
    }
    Ok(entries)
}
