//! The static table (RFC 7541 2.3.1 and appendix A): the one place where it stands.

ghost use Rattle.std.specs.Prelude.{◌<◌, ◌≡◌, Some, length, map, position, slice_get};
ghost use Rattle.std.specs.Option.{ForSome};
ghost use Rattle.rx_hpack.specs.StaticTable.{field_of, has_name, is_field, static_fields};

/// How many entries the static table has. The dynamic table's first index is one more.
pub(crate) const STATIC_LENGTH: usize = 61;

/// The name and the value of an entry.
pub(crate) type Entry = (&'static [u8], &'static [u8]);

/// The entries from index 1 on.
static STATIC_TABLE: [Entry; 61] = [
    (b":authority", b""),
    (b":method", b"GET"),
    (b":method", b"POST"),
    (b":path", b"/"),
    (b":path", b"/index.html"),
    (b":scheme", b"http"),
    (b":scheme", b"https"),
    (b":status", b"200"),
    (b":status", b"204"),
    (b":status", b"206"),
    (b":status", b"304"),
    (b":status", b"400"),
    (b":status", b"404"),
    (b":status", b"500"),
    (b"accept-charset", b""),
    (b"accept-encoding", b"gzip, deflate"),
    (b"accept-language", b""),
    (b"accept-ranges", b""),
    (b"accept", b""),
    (b"access-control-allow-origin", b""),
    (b"age", b""),
    (b"allow", b""),
    (b"authorization", b""),
    (b"cache-control", b""),
    (b"content-disposition", b""),
    (b"content-encoding", b""),
    (b"content-language", b""),
    (b"content-length", b""),
    (b"content-location", b""),
    (b"content-range", b""),
    (b"content-type", b""),
    (b"cookie", b""),
    (b"date", b""),
    (b"etag", b""),
    (b"expect", b""),
    (b"expires", b""),
    (b"from", b""),
    (b"host", b""),
    (b"if-match", b""),
    (b"if-modified-since", b""),
    (b"if-none-match", b""),
    (b"if-range", b""),
    (b"if-unmodified-since", b""),
    (b"last-modified", b""),
    (b"link", b""),
    (b"location", b""),
    (b"max-forwards", b""),
    (b"proxy-authenticate", b""),
    (b"proxy-authorization", b""),
    (b"range", b""),
    (b"referer", b""),
    (b"refresh", b""),
    (b"retry-after", b""),
    (b"server", b""),
    (b"set-cookie", b""),
    (b"strict-transport-security", b""),
    (b"transfer-encoding", b""),
    (b"user-agent", b""),
    (b"vary", b""),
    (b"via", b""),
    (b"www-authenticate", b""),
];

/// The name and the value at a place, which is the index less 1.
#[tactic(auto, unfolding(crate::specs::StaticTable::static_fields))]
pub(crate) fn entry(place: usize) -> Entry
    requires { place < 61 }
    ensures { slice_get static_fields place ≡ Some (field_of result) }
{
    entry_in(&STATIC_TABLE, place)
}

fn entry_in(table: &[Entry], place: usize) -> Entry
    requires { place < length table.now }
    ensures { slice_get (map field_of table.now) place ≡ Some (field_of result) }
{
    table[place]
}

/// The place of the first entry with this name and value.
#[tactic(auto, unfolding(crate::specs::StaticTable::static_fields))]
pub(crate) fn field_place(name: &[u8], value: &[u8]) -> Option<usize>
    ensures place { result ≡ position (is_field name.now value.now) static_fields }
    ensures within { ForSome result (λ place. place < 61) }
{
    field_place_in(&STATIC_TABLE, name, value)
}

/// The place of the first entry with this name.
#[tactic(auto, unfolding(crate::specs::StaticTable::static_fields))]
pub(crate) fn name_place(name: &[u8]) -> Option<usize>
    ensures place { result ≡ position (has_name name.now) static_fields }
    ensures within { ForSome result (λ place. place < 61) }
{
    name_place_in(&STATIC_TABLE, name)
}

fn field_place_in(table: &[Entry], name: &[u8], value: &[u8]) -> Option<usize>
    ensures { result ≡ position (λ entry. is_field name.now value.now (field_of entry)) table.now }
{
    table.iter().position(|entry| is_entry(entry, name, value))
}

fn name_place_in(table: &[Entry], name: &[u8]) -> Option<usize>
    ensures { result ≡ position (λ entry. has_name name.now (field_of entry)) table.now }
{
    table.iter().position(|entry| entry_has_name(entry, name))
}

fn is_entry(entry: &Entry, name: &[u8], value: &[u8]) -> bool
    ensures { result ≡ is_field name.now value.now (field_of entry.now) }
{
    entry.0 == name && entry.1 == value
}

fn entry_has_name(entry: &Entry, name: &[u8]) -> bool
    ensures { result ≡ has_name name.now (field_of entry.now) }
{
    entry.0 == name
}
