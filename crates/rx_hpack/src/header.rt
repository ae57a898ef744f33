//! A header field, and the size that it counts for.

ghost use Rattle.std.specs.Prelude.{◌<◌, ◌^◌, ◌≡◌, ◌≤◌};
ghost use Rattle.std.specs.Option.{SomeIff};
ghost use Rattle.rx_hpack.specs.Header.{entry_size as size_of_entry, view};

/// What an entry counts for besides its name and value (RFC 7541 4.1).
const ENTRY_OVERHEAD: usize = 32;

/// A header field (RFC 7541 1.3). Both parts are bytes as they stand on the wire, and either may
/// be empty.
#[derive(Debug, Clone, PartialEq, Eq, Drop)]
pub struct Header {
    /// The name, in lower case on a well-formed connection, which isn't judged here.
    pub name: Vec<u8>,
    /// The value.
    pub value: Vec<u8>,
}

/// The size of an entry, which is the two lengths and 32 (RFC 7541 4.1), where there is so much room.
pub(crate) fn size_within(room: usize, name: &[u8], value: &[u8]) -> Option<usize>
    ensures { SomeIff result (size_of_entry (record { name = name.now; value = value.now }) ≤ room)
        (size_of_entry (record { name = name.now; value = value.now })) }
{
    let size = ENTRY_OVERHEAD
        .checked_add(name.len())?
        .checked_add(value.len())?;
    if size > room {
        return None;
    }
    Some(size)
}

/// The size of an entry that counts for less than memory has.
pub(crate) fn entry_size(header: &Header) -> usize
    requires { size_of_entry (view header.now) < 2 ^ 64 }
    ensures { result ≡ size_of_entry (view header.now) }
{
    header.name.as_slice().len() + header.value.as_slice().len() + ENTRY_OVERHEAD
}
