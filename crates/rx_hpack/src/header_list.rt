//! The list of the headers that a block gave so far, and its bound.

ghost use Rattle.std.specs.Prelude.{[], ◌==◌, ◌≡◌, length};
ghost use Rattle.rx_hpack.specs.Header.{view, views};
ghost use Rattle.rx_hpack.specs.HeaderList.{Keeps};

use crate::fault::HpackFault;
use crate::header::{Header, size_within};
use std::alloc::Global;
use std::marker::Model;

/// The most that the sizes of a list's entries may sum to (RFC 9113 6.5.2,
/// SETTINGS_MAX_HEADER_LIST_SIZE).
pub const LARGEST_LIST: usize = 65_536;

/// Headers in order, with the sum of their sizes.
#[derive(Drop)]
pub(crate) struct HeaderList {
    headers: Vec<Header>,
    size: usize,
}

impl Model for HeaderList {
    ghost use Rattle.std.specs.Prelude.{List, ◌≡◌, ◌≤◌};
    ghost use Rattle.rx_hpack.specs.Header.{Field, size_of, views};

    ghost Value = { List Field };

    ghost view = { λ l. views l.headers.items };

    ghost invariant = { λ l. (l.size ≡ size_of (views l.headers.items)) × (l.size ≤ 65536) };
}

impl HeaderList {
    pub(crate) fn new(alloc: Global) -> HeaderList
        ensures { result ≡ [] }
    {
        HeaderList {
            headers: Vec::new(alloc),
            size: 0,
        }
    }

    /// Whether no header came yet.
    pub(crate) fn is_empty(&self) -> bool
        ensures { result ≡ (length self.now == 0) }
    {
        self.headers.is_empty()
    }

    /// Keeps a header at the end, unless the list is too large with it.
    pub(crate) fn push(&mut self, header: Header) -> Result<(), HpackFault>
        ensures { Keeps self.old (view header) result self.new }
    {
        let room = LARGEST_LIST - self.size;
        let Some(size) = size_within(room, &header.name, &header.value) else {
            return Err(HpackFault::ListTooLarge);
        };
        self.headers.push(header)?;
        self.size += size;
        Ok(())
    }

    /// The same for a header that is copied once it is known to be kept.
    pub(crate) fn push_copy(
        &mut self,
        alloc: Global,
        name: &[u8],
        value: &[u8],
    ) -> Result<(), HpackFault>
        ensures { Keeps self.old (record { name = name.now; value = value.now }) result self.new }
    {
        let room = LARGEST_LIST - self.size;
        let Some(_) = size_within(room, name, value) else {
            return Err(HpackFault::ListTooLarge);
        };
        let name = Vec::from_slice(alloc, name)?;
        let value = Vec::from_slice(alloc, value)?;
        self.push(Header { name, value })
    }

    /// The headers.
    pub(crate) fn into_headers(self) -> Vec<Header>
        ensures { views result.items ≡ self }
    {
        let HeaderList { headers, size: _ } = self;
        headers
    }
}
