//! Desks of which no call fails but for want of memory, and what one session has besides.

ghost use Rattle.std.specs.Prelude.{◌≡◌, [], IfOk, drop};
ghost use Rattle.witness_rows.specs.Trivial.{trivial_root};

use crate::benches::QuietBenches;
use crate::place::QuietPlace;
use rx_base::{NoMemory, Text};
use rx_blobs::Presence;
use rx_board::Board;
use rx_digest_cache::DigestCache;
use rx_engine::{Parts, Shared};
use rx_exec_messages::Script;
use rx_fakes::{QuietSink, QuietSource, QuietSources, SourceEntries};
use rx_inputs::HashedContents;
use rx_world::{Contents, Dialect, Toy};
use std::alloc::Global;

pub(crate) type QuietDesk<K> = Parts<
    QuietSource,
    QuietSink,
    QuietSources<K>,
    QuietSources<K>,
    QuietBenches,
    QuietSources<K>,
    Script,
>;

/// An empty source tree.
pub(crate) fn no_sources<K: Contents>(alloc: Global) -> QuietSources<K>
    ensures { result.entries ≡ [] }
{
    QuietSources {
        alloc,
        entries: SourceEntries::new(alloc),
    }
}

/// A desk with this input, and with these source trees for gathering and for local attempts.
pub(crate) fn desk_of<K: Contents>(
    alloc: Global,
    frame: Vec<u8>,
    tree: QuietSources<K>,
    tree_local: QuietSources<K>,
) -> QuietDesk<K>
    ensures told { drop result.input.at result.input.bytes.items ≡ frame.items }
    ensures tree { result.tree.entries ≡ tree.entries }
    ensures tree_local { result.tree_local.entries ≡ tree_local.entries }
{
    Parts {
        input: QuietSource::new(frame),
        output: QuietSink::new(alloc),
        tree,
        tree_local,
        benches: QuietBenches { alloc },
        tree_remote: no_sources(alloc),
        farm: Script::new(alloc, Vec::new(alloc), Dialect::New),
    }
}

/// What the session shares with others, of which there are none: a board for one entry.
pub(crate) fn shared_alone<K: Contents>(
    alloc: Global,
) -> Result<Shared<Toy<K>, QuietPlace>, NoMemory>
    ensures root { IfOk result (λ shared. shared.root ≡ trivial_root) }
    ensures journal { IfOk result (λ shared. shared.board.journal ≡ []) }
    ensures limit { IfOk result (λ shared. shared.board.limit ≡ 1) }
{
    Ok(Shared {
        root: Text::copy_of(alloc, "/r")?,
        board: Board::new(alloc, QuietPlace::new(alloc), 1),
        cache: DigestCache::new(alloc, 1)?,
        hashed: HashedContents::new(alloc),
        presence: Presence::new(alloc, 1),
    })
}
