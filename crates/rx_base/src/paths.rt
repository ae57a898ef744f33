//! Relative paths: made by reading a text, compared by their bytes.

ghost use Rattle.std.specs.Prelude.{◌≡◌, ◌≢◌, ◌==◌, ◌++◌, ◌∷◌, [], IfOk, Ok, Some, length, nat_eq, refl};
ghost use Rattle.std.specs.List.{AllByRecursion, starts_with};
ghost use Rattle.std.specs.Ordering.{nat_cmp};
ghost use Rattle.std.specs.Str.{bytes_eq};
ghost use Rattle.std.specs.Cmp.{partial_equiv_from_equiv};
ghost use Rattle.std.specs.Cmp.Lexicographic.{slice_cmp, nat_list_eq_equiv, nat_list_cmp_total, texts_po, texts_ties};
ghost use Rattle.rx_base.specs.declared.path_fault.PathFault.TheVariants as fault;
ghost use Rattle.rx_base.specs.Paths.{checked, is_below, join_of, joined, parent_of, parts, prefixes_of, read_of, IsName, IsPath};
ghost use Rattle.rx_base.specs.Results.{Gives};
ghost use Rattle.rx_base.specs.Texts.{texts};

use crate::item_list::Items;
use crate::memory::{NoMemory, TryClone};
use crate::path_fault::PathFault;
use crate::path_text::{are_names, check, join_names, parts_of, text_behind, walk};
use std::alloc::Global;
use std::cmp::Ordering;
use std::marker::Model;

/// The most bytes of a path.
pub const MAX_PATH_LEN: usize = 4096;

/// A path below a root: names with a slash between them, no name empty, `.` or `..`, no zero byte,
/// at most 4,096 bytes. It is seen as its bytes; the root itself is the empty list. Paths are
/// ordered by their bytes.
#[derive(Debug, Drop)]
pub struct RelPath {
    text: String,
}

impl Model for RelPath {
    ghost use Rattle.std.specs.Prelude.{List, ℕ, string_bytes};
    ghost use Rattle.rx_base.specs.Paths.{IsPath};

    ghost Value = { List ℕ };

    ghost view = { λ p. string_bytes p.text };

    ghost invariant = { λ p. IsPath (string_bytes p.text) };
}

impl RelPath {
    /// The root. It takes no memory.
    pub fn root(alloc: Global) -> RelPath
        ensures { result ≡ [] }
    {
        RelPath {
            text: String::new(alloc),
        }
    }

    /// The path that a text names: its parts between slashes, where an empty part and `.` are
    /// dropped and `..` removes the part before it. `a/..` and `.` name the root.
    #[tactic(auto, unfolding(crate::specs::Paths::read_of, crate::specs::Paths::path_of))]
    pub fn read(alloc: Global, text: &str) -> Result<RelPath, PathFault>
        ensures { Gives fault.NoMemory (λ path. path) result (read_of text.now) }
    {
        if text.is_empty() {
            return Err(PathFault::Empty);
        }
        if text.len() > MAX_PATH_LEN {
            return Err(PathFault::TooLong);
        }
        check(text)?;
        let names = walk(Vec::new(alloc), text)?;
        let text = join_names(alloc, &names)?;
        Ok(RelPath { text })
    }

    /// The path that a text names on from this one. `TooLong` counts the result here, after the
    /// other refusals.
    #[tactic(auto, unfolding(crate::specs::Paths::join_of))]
    pub fn join(&self, alloc: Global, text: &str) -> Result<RelPath, PathFault>
        ensures { Gives fault.NoMemory (λ path. path) result (join_of self.now text.now) }
    {
        if text.is_empty() {
            return Err(PathFault::Empty);
        }
        check(text)?;
        if are_names(text) {
            return self.join_names(alloc, text);
        }
        let names = walk(Vec::new(alloc), self.text.as_str())?;
        let names = walk(names, text)?;
        let text = join_names(alloc, &names)?;
        if text.len() > MAX_PATH_LEN {
            return Err(PathFault::TooLong);
        }
        Ok(RelPath { text })
    }

    /// The path that a text of names, with slashes between them, names on from this one.
    fn join_names(&self, alloc: Global, text: &str) -> Result<RelPath, PathFault>
        requires some { text.now ≢ [] }
        requires names { AllByRecursion IsName (parts text.now) }
        requires unrefused { checked text.now ≡ Ok tt }
        ensures { Gives fault.NoMemory (λ path. path) result (join_of self.now text.now) }
    {
        let joined = text_behind(alloc, self.text.as_str(), text)?;
        if joined.len() > MAX_PATH_LEN {
            return Err(PathFault::TooLong);
        }
        Ok(RelPath { text: joined })
    }

    /// The path as text, with a slash between its names.
    pub fn as_str(&self) -> &str
        ensures text { result.now ≡ self.now }
        ensures path { IsPath self.now }
        // Reading a path's own text gives the path back; the root's text is empty and no path's.
        ensures again { self.now ≢ [] → read_of self.now ≡ Ok self.now }
    {
        self.text.as_str()
    }

    /// Whether this is the root.
    pub fn is_root(&self) -> bool
        ensures { result ≡ (length self.now == 0) }
    {
        self.as_str().is_empty()
    }

    /// Whether this path lies below another, by one name or more. No path lies below itself.
    pub fn is_below(&self, other: &RelPath) -> bool
        ensures { result ≡ is_below self.now other.now }
    {
        if other.is_root() {
            return !self.is_root();
        }
        starts_with_directory(self.as_str().as_bytes(), other.as_str().as_bytes())
    }

    /// The path one name above this one; the root has none.
    pub fn parent(&self, alloc: Global) -> Result<Option<RelPath>, NoMemory>
        ensures { IfOk result (λ parent. parent ≡ parent_of self.now) }
    {
        if self.is_root() {
            return Ok(None);
        }
        let mut names = parts_of(alloc, self.text.as_str())?;
        names.pop();
        Ok(Some(path_of_names(alloc, &names)?))
    }

    /// The paths above this one, the upper first, without the root.
    pub fn prefixes(&self, alloc: Global) -> Result<Items<RelPath>, NoMemory>
        ensures { IfOk result (λ prefixes. prefixes ≡ prefixes_of self.now) }
    {
        let names = parts_of(alloc, self.text.as_str())?;
        let mut prefixes = Items::new(alloc);
        for count in 1..names.len() {
            let (above, _) = names.split_at(count);
            prefixes.push(path_of_names(alloc, above)?)?;
        }
        Ok(prefixes)
    }
}

/// The path of these names.
fn path_of_names(alloc: Global, names: &[&str]) -> Result<RelPath, NoMemory>
    requires { IsPath (joined (texts names.now)) }
    ensures { IfOk result (λ path. path ≡ joined (texts names.now)) }
{
    let text = join_names(alloc, names)?;
    Ok(RelPath { text })
}

/// Whether the bytes begin with a directory's, which a slash follows.
fn starts_with_directory(bytes: &[u8], directory: &[u8]) -> bool
    ensures { result ≡ starts_with nat_eq bytes.now (directory.now ++ 47 ∷ []) }
{
    if !bytes.starts_with(directory) {
        return false;
    }
    let (_, rest) = bytes.split_at(directory.len());
    rest.starts_with(b"/")
}

impl Clone for RelPath {
    ghost is_clone = { λ old new. new ≡ old };

    fn clone(&self) -> Result<RelPath, NoMemory> {
        let text = self.text.clone()?;
        Ok(RelPath { text })
    }
}

impl TryClone for RelPath {
    fn try_clone(&self, alloc: Global) -> Result<RelPath, NoMemory> {
        let text = String::from_str(alloc, self.text.as_str())?;
        Ok(RelPath { text })
    }
}

impl PartialEq for RelPath {
    ghost eq = { bytes_eq };

    ghost laws = { partial_equiv_from_equiv nat_list_eq_equiv };

    fn eq(&self, other: &RelPath) -> bool {
        self.as_str() == other.as_str()
    }
}

impl Eq for RelPath {
    ghost laws = { nat_list_eq_equiv };
}

impl PartialOrd for RelPath {
    ghost partial_cmp = { λ x y. Some (slice_cmp nat_cmp x y) };

    ghost laws = { texts_po };

    fn partial_cmp(&self, other: &RelPath) -> Option<Ordering> {
        Some(self.cmp(other))
    }
}

impl Ord for RelPath {
    ghost cmp = { slice_cmp nat_cmp };

    ghost total = { nat_list_cmp_total };

    ghost matches_partial_cmp = { λ x y. refl };

    ghost matches_eq = { texts_ties };

    fn cmp(&self, other: &RelPath) -> Ordering {
        self.as_str().cmp(other.as_str())
    }
}
