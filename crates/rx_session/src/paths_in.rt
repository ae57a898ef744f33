//! The paths that texts name.

ghost use Rattle.std.specs.Prelude.{◌≡◌, IfNone, IfOk, IfSome, false, true};
ghost use Rattle.rx_session.specs.Rules.{directory_holds, is_path, path_in, paths_hold, paths_in};

use rx_base::{Items, NoMemory, PathFault, RelPath, Text};
use std::alloc::{AllocError, Global};

/// The path that a text names, where it names one.
fn read_path(alloc: Global, text: &Text) -> Result<Option<RelPath>, NoMemory>
    ensures some { IfOk result (λ read. IfSome read
        (λ path. (path ≡ path_in text.now) × (is_path text.now ≡ true))) }
    ensures none { IfOk result (λ read. IfNone read (is_path text.now ≡ false)) }
{
    match RelPath::read(alloc, text.as_str()) {
        Ok(path) => Ok(Some(path)),
        Err(PathFault::NoMemory) => Err(AllocError),
        Err(_) => Ok(None),
    }
}

/// 5: the directory that a text names, where it names one: the root for an empty text.
#[tactic(auto, unfolding(crate::specs::Rules::directory_holds))]
pub(crate) fn read_directory(alloc: Global, text: &Text) -> Result<Option<RelPath>, NoMemory>
    ensures some { IfOk result (λ read. IfSome read
        (λ path. (path ≡ path_in text.now) × (directory_holds text.now ≡ true))) }
    ensures none { IfOk result (λ read. IfNone read (directory_holds text.now ≡ false)) }
{
    if text.is_empty() {
        return Ok(Some(RelPath::root(alloc)));
    }
    read_path(alloc, text)
}

/// 8, 9, 10: the paths that texts name, where each names one.
#[tactic(auto, unfolding(crate::specs::Rules::paths_hold))]
pub(crate) fn read_paths(alloc: Global, texts: &[Text]) -> Result<Option<Items<RelPath>>, NoMemory>
    ensures some { IfOk result (λ read. IfSome read
        (λ paths. (paths ≡ paths_in texts.now) × (paths_hold texts.now ≡ true))) }
    ensures none { IfOk result (λ read. IfNone read (paths_hold texts.now ≡ false)) }
{
    let mut paths = Vec::with_capacity(alloc, texts.len())?;
    for text in texts {
        match read_path(alloc, text)? {
            Some(path) => paths.push(path)?,
            None => return Ok(None),
        }
    }
    Ok(Some(Items::from_vec(paths)))
}

/// The path that a text names; one that names none stands for the root.
pub(crate) fn path_in(alloc: Global, text: &Text) -> Result<RelPath, NoMemory>
    ensures { IfOk result (λ path. path ≡ path_in text.now) }
{
    match RelPath::read(alloc, text.as_str()) {
        Ok(path) => Ok(path),
        Err(PathFault::NoMemory) => Err(AllocError),
        Err(_) => Ok(RelPath::root(alloc)),
    }
}

/// The paths that texts name, in their order.
pub(crate) fn paths_in(alloc: Global, texts: &[Text]) -> Result<Items<RelPath>, NoMemory>
    ensures { IfOk result (λ paths. paths ≡ paths_in texts.now) }
{
    let mut paths = Vec::with_capacity(alloc, texts.len())?;
    for text in texts {
        paths.push(path_in(alloc, text)?)?;
    }
    Ok(Items::from_vec(paths))
}
