//! The includes of a file and the forced files, sought in their directories, and the ways to other paths.

ghost use Rattle.std.specs.Prelude.{◌≡◌, ◌≤◌, ◌++◌, ◌∷◌, [], IfErr, OnOk, flat_map, map};
ghost use Rattle.std.specs.Option.{option_copied, option_to_list};
ghost use Rattle.rx_base.specs.Paths.{parent_of};
ghost use Rattle.rx_lex.specs.Found.{name_view};
ghost use Rattle.rx_reach.specs.Candidates.{try_in};
ghost use Rattle.rx_reach.specs.Progress.{KeepsKnown, Seeks, Stays};
ghost use Rattle.rx_reach.specs.Scans.{Ends, Scans};
ghost use Rattle.rx_reach.specs.Searches.{all_forced, all_walked, first_tries, quoted_dirs, tries_of, tries_under};

use crate::candidates::seek;
use crate::faults::SightFault;
use crate::progress::Progress;
use crate::searches::Search;
use crate::sights::Sights;
use rx_base::RelPath;
use rx_lex::Include;
use rx_world::{Sources, World};
use std::alloc::Global;

/// Seeks a name in one directory. One that is no text names no path.
fn seek_one<W: World, S: Sources<W>>(
    alloc: Global,
    sources: &mut S,
    sights: &mut Sights,
    progress: &mut Progress,
    blamed: &RelPath,
    dir: &RelPath,
    name: &[u8],
) -> Result<(), SightFault>
    ensures ok { OnOk result (Scans W.World S.Sources
        sources.old sources.new sights.old sights.new
        (λ scene. Seeks scene blamed.now
        (try_in dir.now name.now ∷ []) progress.old progress.new)) }
    ensures stays { OnOk result (Stays progress.old progress.new) }
    ensures known { OnOk result (KeepsKnown sights.old sights.new blamed.now
        progress.old progress.new) }
    ensures err { IfErr result (Ends W.World S.Sources sources.old sources.new sights.old) }
{
    let Ok(text) = str::from_utf8(name) else {
        return Ok(());
    };
    if let Some(tried) = sights.find_try(dir, text) {
        progress.take(alloc, tried, blamed)?;
        return Ok(());
    }
    let tried = seek::<W, S>(alloc, sources, sights, dir, text)?;
    progress.take(alloc, &tried, blamed)?;
    sights.keep_try(alloc, dir, text, tried)?;
    Ok(())
}

/// Seeks a name in some directories.
fn seek_in<W: World, S: Sources<W>>(
    alloc: Global,
    sources: &mut S,
    sights: &mut Sights,
    progress: &mut Progress,
    blamed: &RelPath,
    dirs: &[RelPath],
    name: &[u8],
) -> Result<(), SightFault>
    ensures ok { OnOk result (Scans W.World S.Sources
        sources.old sources.new sights.old sights.new
        (λ scene. Seeks scene blamed.now
        (tries_under dirs.now name.now) progress.old progress.new)) }
    ensures stays { OnOk result (Stays progress.old progress.new) }
    ensures known { OnOk result (KeepsKnown sights.old sights.new blamed.now
        progress.old progress.new) }
    ensures err { IfErr result (Ends W.World S.Sources sources.old sources.new sights.old) }
{
    for dir in dirs {
        seek_one::<W, S>(alloc, sources, sights, progress, blamed, dir, name)?;
    }
    Ok(())
}

/// Seeks a name in the directory that comes before all others, where there is one.
fn seek_first<W: World, S: Sources<W>>(
    alloc: Global,
    sources: &mut S,
    sights: &mut Sights,
    progress: &mut Progress,
    blamed: &RelPath,
    first: Option<&RelPath>,
    name: &[u8],
) -> Result<(), SightFault>
    ensures ok { OnOk result (Scans W.World S.Sources
        sources.old sources.new sights.old sights.new
        (λ scene. Seeks scene blamed.now
        (tries_under (option_to_list (option_copied first.entry)) name.now)
        progress.old progress.new)) }
    ensures stays { OnOk result (Stays progress.old progress.new) }
    ensures known { OnOk result (KeepsKnown sights.old sights.new blamed.now
        progress.old progress.new) }
    ensures err { IfErr result (Ends W.World S.Sources sources.old sources.new sights.old) }
{
    match first {
        Some(dir) => seek_one::<W, S>(alloc, sources, sights, progress, blamed, dir, name),
        None => Ok(()),
    }
}

/// Seeks a name in a first directory, in those for quoted names, and in those for both kinds.
fn seek_from<W: World, S: Sources<W>>(
    alloc: Global,
    sources: &mut S,
    sights: &mut Sights,
    progress: &mut Progress,
    blamed: &RelPath,
    first: Option<&RelPath>,
    search: &Search,
    name: &[u8],
) -> Result<(), SightFault>
    ensures ok { OnOk result (Scans W.World S.Sources
        sources.old sources.new sights.old sights.new
        (λ scene. Seeks scene blamed.now
        (tries_under (quoted_dirs search.now (option_copied first.entry)) name.now)
        progress.old progress.new)) }
    ensures stays { OnOk result (Stays progress.old progress.new) }
    ensures known { OnOk result (KeepsKnown sights.old sights.new blamed.now
        progress.old progress.new) }
    ensures err { IfErr result (Ends W.World S.Sources sources.old sources.new sights.old) }
{
    let quoted = search.quote_dirs.as_slice();
    let both = search.dirs.as_slice();
    seek_first::<W, S>(alloc, sources, sights, progress, blamed, first, name)?;
    seek_in::<W, S>(alloc, sources, sights, progress, blamed, quoted, name)?;
    seek_in::<W, S>(alloc, sources, sights, progress, blamed, both, name)?;
    Ok(())
}

/// Seeks what one include of a file names. Beside the file means in the directory above it.
fn seek_include<W: World, S: Sources<W>>(
    alloc: Global,
    sources: &mut S,
    sights: &mut Sights,
    progress: &mut Progress,
    file: &RelPath,
    beside: Option<&RelPath>,
    search: &Search,
    include: &Include,
) -> Result<(), SightFault>
    requires { option_copied beside ≡ parent_of file.now }
    ensures ok { OnOk result (Scans W.World S.Sources
        sources.old sources.new sights.old sights.new
        (λ scene. Seeks scene file.now (tries_of search.now file.now
        (name_view include.now)) progress.old progress.new)) }
    ensures stays { OnOk result (Stays progress.old progress.new) }
    ensures known { OnOk result (KeepsKnown sights.old sights.new file.now
        progress.old progress.new) }
    ensures err { IfErr result (Ends W.World S.Sources sources.old sources.new sights.old) }
{
    let both = search.dirs.as_slice();
    match include {
        Include::Quoted(name) => {
            let bytes = name.as_slice();
            seek_from::<W, S>(
                alloc, sources, sights, progress, file, beside, search, bytes,
            )?;
            Ok(())
        }
        Include::Angled(name) => {
            let bytes = name.as_slice();
            seek_in::<W, S>(alloc, sources, sights, progress, file, both, bytes)?;
            Ok(())
        }
    }
}

/// Seeks what the includes of a file name.
pub(crate) fn seek_includes<W: World, S: Sources<W>>(
    alloc: Global,
    sources: &mut S,
    sights: &mut Sights,
    progress: &mut Progress,
    file: &RelPath,
    beside: Option<&RelPath>,
    search: &Search,
    list: &[Include],
) -> Result<(), SightFault>
    requires { option_copied beside ≡ parent_of file.now }
    ensures ok { OnOk result (Scans W.World S.Sources
        sources.old sources.new sights.old sights.new
        (λ scene. Seeks scene file.now (flat_map (tries_of search.now file.now)
        (map name_view list.now)) progress.old progress.new)) }
    ensures stays { OnOk result (Stays progress.old progress.new) }
    ensures known { OnOk result (KeepsKnown sights.old sights.new file.now
        progress.old progress.new) }
    ensures err { IfErr result (Ends W.World S.Sources sources.old sources.new sights.old) }
{
    for include in list {
        seek_include::<W, S>(
            alloc, sources, sights, progress, file, beside, search, include,
        )?;
    }
    Ok(())
}

/// Seeks the forced files. A name that leads outside makes the source hard.
fn seek_forced<W: World, S: Sources<W>>(
    alloc: Global,
    sources: &mut S,
    sights: &mut Sights,
    progress: &mut Progress,
    search: &Search,
) -> Result<(), SightFault>
    ensures ok { OnOk result (Scans W.World S.Sources
        sources.old sources.new sights.old sights.new
        (λ scene. Seeks scene search.now.source
        (all_forced search.now) progress.old progress.new)) }
    ensures stays { OnOk result (Stays progress.old progress.new) }
    ensures known { OnOk result (KeepsKnown sights.old sights.new search.now.source
        progress.old progress.new) }
    ensures err { IfErr result (Ends W.World S.Sources sources.old sources.new sights.old) }
{
    let names = search.forced.as_slice();
    for name in names {
        let first = Some(&search.working_directory);
        let bytes = name.as_str().as_bytes();
        seek_from::<W, S>(
            alloc,
            sources,
            sights,
            progress,
            &search.source,
            first,
            search,
            bytes,
        )?;
    }
    Ok(())
}

/// Walks the ways to the paths that words name besides. A text that leads outside makes the source hard.
fn seek_walked<W: World, S: Sources<W>>(
    alloc: Global,
    sources: &mut S,
    sights: &mut Sights,
    progress: &mut Progress,
    search: &Search,
) -> Result<(), SightFault>
    ensures ok { OnOk result (Scans W.World S.Sources
        sources.old sources.new sights.old sights.new
        (λ scene. Seeks scene search.now.source
        (all_walked search.now) progress.old progress.new)) }
    ensures stays { OnOk result (Stays progress.old progress.new) }
    ensures known { OnOk result (KeepsKnown sights.old sights.new search.now.source
        progress.old progress.new) }
    ensures err { IfErr result (Ends W.World S.Sources sources.old sources.new sights.old) }
{
    let texts = search.walked.as_slice();
    for text in texts {
        let from = &search.working_directory;
        let bytes = text.as_str().as_bytes();
        seek_one::<W, S>(
            alloc,
            sources,
            sights,
            progress,
            &search.source,
            from,
            bytes,
        )?;
    }
    Ok(())
}

/// Seeks what words name before any file is read: the forced files, then the ways to other paths.
pub(crate) fn seek_named<W: World, S: Sources<W>>(
    alloc: Global,
    sources: &mut S,
    sights: &mut Sights,
    progress: &mut Progress,
    search: &Search,
) -> Result<(), SightFault>
    ensures ok { OnOk result (Scans W.World S.Sources
        sources.old sources.new sights.old sights.new
        (λ scene. Seeks scene search.now.source
        (first_tries search.now) progress.old progress.new)) }
    ensures stays { OnOk result (Stays progress.old progress.new) }
    ensures known { OnOk result (KeepsKnown sights.old sights.new search.now.source
        progress.old progress.new) }
    ensures err { IfErr result (Ends W.World S.Sources sources.old sources.new sights.old) }
{
    seek_forced::<W, S>(alloc, sources, sights, progress, search)?;
    seek_walked::<W, S>(alloc, sources, sights, progress, search)?;
    Ok(())
}
