//! A read at a world that is picked so that its stamps are honest, so that the condition under
//! which entries are added is seen to be one that a caller can meet.

ghost use Rattle.std.specs.Prelude.{◌≡◌, IfOk, false};
ghost use Rattle.rx_fakes.specs.Entries.{stamp_of};
ghost use Rattle.rx_world.specs.declared.looks.Look.TheVariants.{File};
ghost use Rattle.rx_world.specs.Sources.{GivesContent};

use crate::{MemorySources, Script, SourceEntries};
use rx_base::{Bytes, RelPath, TryClone};
use rx_world::{Contents, Look, Refused, Sources};
use std::alloc::Global;
use std::marker::Brand;

/// Reads a file from a source tree that has it alone.
fn read_at<K: Contents>(
    alloc: Global,
    path: RelPath,
    bytes: Bytes,
) -> Result<(Look, Bytes), Refused>
    requires { K.honest → bytes ≡ K.holds path (stamp_of bytes 0) }
    ensures honest { IfOk result (λ read. K.honest → GivesContent K.holds path read.0 read.1) }
    ensures read { IfOk result (λ read.
        (read.0 ≡ File (stamp_of bytes 0) false) × (read.1 ≡ bytes)) }
{
    let at = path.try_clone(alloc)?;
    let mut entries: SourceEntries<K> = SourceEntries::new(alloc);
    entries.add_file(path, 0, false, bytes)?;
    let mut sources = MemorySources::new(alloc, entries, None, Script::empty(alloc));
    sources.read(&at)
}

/// The same at a world that holds these bytes under each stamp, and whose stamps are honest.
pub fn honest_read(alloc: Global, path: RelPath, bytes: Bytes) -> Result<(Look, Bytes), Refused>
    ensures honest { IfOk result (λ read. GivesContent (λ at stamp. bytes) path read.0 read.1) }
    ensures read { IfOk result (λ read.
        (read.0 ≡ File (stamp_of bytes 0) false) × (read.1 ≡ bytes)) }
{
    read_at::<Brand>(alloc, path, bytes)
}
