//! The dynamic table (RFC 7541 2.3.2 and 4): what was learned on the connection, oldest out first.

ghost use Rattle.std.specs.Prelude.{[], ◌∷◌, ◌≡◌, ◌≤◌, OnOk, map, slice_get};
ghost use Rattle.std.specs.Option.{option_map};
ghost use Rattle.rx_hpack.specs.Header.{size_of, view, views};
ghost use Rattle.rx_hpack.specs.DynamicTable.{fitting, inserted, resized};

use crate::header::{Header, entry_size, size_within};
use std::alloc::{AllocError, Global};
use std::collections::VecDeque;
use std::marker::Model;

/// The largest size of the table, which an HTTP/2 client has unless it tells another
/// (RFC 9113 6.5.2, SETTINGS_HEADER_TABLE_SIZE).
pub(crate) const LARGEST_TABLE: usize = 4096;

/// The entries, the newest first, with the size that they may come to.
#[derive(Debug, Drop)]
pub(crate) struct DynamicTable {
    entries: VecDeque<Header>,
    size: usize,
    largest: usize,
}

impl Model for DynamicTable {
    ghost use Rattle.std.specs.Prelude.{◌≡◌, ◌≤◌};
    ghost use Rattle.rx_hpack.specs.Header.{size_of, views};
    ghost use Rattle.rx_hpack.specs.DynamicTable.{Table};

    ghost Value = { Table };

    ghost view = { λ t. record { entries = views t.entries.items; largest = t.largest } };

    ghost invariant = { λ t. (t.size ≡ size_of (views t.entries.items))
        × (t.size ≤ t.largest) × (t.largest ≤ 4096) };
}

impl DynamicTable {
    /// An empty table of the largest size.
    pub(crate) fn new(alloc: Global) -> DynamicTable
        ensures { result ≡ record { entries = []; largest = 4096 } }
    {
        DynamicTable {
            entries: VecDeque::new(alloc),
            size: 0,
            largest: LARGEST_TABLE,
        }
    }

    /// The entry that so many newer ones stand before.
    pub(crate) fn get(&self, place: usize) -> Option<&Header>
        ensures { option_map (λ header. view header.now) result ≡ slice_get self.now.entries place }
    {
        self.entries.get(place)
    }

    /// Puts an entry in front, once the oldest ones have made room (RFC 7541 4.4). One that is
    /// larger than the whole table leaves it empty.
    pub(crate) fn insert(&mut self, header: Header) -> Result<(), AllocError>
        ensures { OnOk result (self.new ≡ inserted (view header) self.old) }
    {
        let largest = self.largest;
        let Some(size) = size_within(largest, &header.name, &header.value) else {
            self.entries.clear();
            self.size = 0;
            return Ok(());
        };
        let left = self.size;
        self.size = evict(&mut self.entries, left, largest - size);
        self.entries.push_front(header)?;
        self.size += size;
        Ok(())
    }

    /// Sets the size that the entries may come to, and drops the oldest ones that are past it
    /// (RFC 7541 4.3).
    pub(crate) fn resize(&mut self, largest: usize)
        requires { largest ≤ 4096 }
        ensures { self.new ≡ resized largest self.old }
    {
        let size = self.size;
        self.size = evict(&mut self.entries, size, largest);
        self.largest = largest;
    }
}

/// Drops the oldest entries, whose sizes sum to `size`, until the others have at most `room`, and
/// answers the size of these.
fn evict(entries: &mut VecDeque<Header>, size: usize, room: usize) -> usize
    requires { size ≡ size_of (views entries.old.items) }
    ensures kept { views entries.new.items ≡ fitting room (views entries.old.items) }
    ensures size { result ≡ size_of (views entries.new.items) }
    ensures within { result ≤ room }
{
    let mut size = size;
    while size > room {
        let Some(oldest) = entries.pop_back() else {
            break;
        };
        size -= entry_size(&oldest);
    }
    size
}
