//! The representations of a header block (RFC 7541 6): reading one, and nothing of what it does.
//!
//! ```text
//! | 1 |        index (7+)         |   a field of the tables (6.1)
//! | 0 | 1 |      index (6+)       |   a field that is added to the dynamic table (6.2.1)
//! | 0 | 0 | 1 |   max size (5+)   |   a new size of the dynamic table (6.3)
//! | 0 | 0 | 0 | 1 |  index (4+)   |   a field that is never indexed (6.2.3)
//! | 0 | 0 | 0 | 0 |  index (4+)   |   a field that isn't added (6.2.2)
//! ```
//!
//! A literal field's value follows as a string, and so does its name before it where the index
//! is 0.

ghost use Rattle.std.specs.Prelude.{◌≡◌, ◌≤◌, IfOk, length};
ghost use Rattle.rx_hpack.specs.Answers.{Gives};
ghost use Rattle.rx_hpack.specs.Representation.{literal_at, name_at, name_view, representation_at, representation_view};

use crate::dynamic_table::DynamicTable;
use crate::fault::HpackFault;
use crate::{index, integer, text};
use std::alloc::Global;

/// The largest number in the prefix of an indexed field's index: seven bits.
pub(crate) const INDEXED_PREFIX: u8 = 127;

/// The same of the index of a field that is added to the dynamic table: six bits.
const INCREMENTAL_PREFIX: u8 = 63;

/// The same of a size update: five bits.
const SIZE_PREFIX: u8 = 31;

/// The same of the index of a field that isn't added: four bits.
pub(crate) const LITERAL_PREFIX: u8 = 15;

/// What becomes of a literal field besides.
#[derive(Clone, Copy, Debug, PartialEq, Eq)]
pub(crate) enum Indexing {
    /// It is added to the dynamic table (RFC 7541 6.2.1).
    Incremental,
    /// It isn't added (RFC 7541 6.2.2).
    Without,
    /// It isn't added, by this and each further hop (RFC 7541 6.2.3).
    Never,
}

/// The name of a literal field.
#[derive(Debug, Drop)]
pub(crate) enum Name {
    /// That of the field with this index, which isn't 0.
    Indexed(u32),
    New(Vec<u8>),
}

#[derive(Debug, Drop)]
pub(crate) enum Representation {
    Indexed(u32),
    Literal(Indexing, Name, Vec<u8>),
    SizeUpdate(u32),
}

/// The representation that begins with the byte `first` and goes on with `bytes`, and the bytes
/// after it. A name's index is looked up before the value is read, so the first fault is told.
#[tactic(auto, unfolding(crate::specs::Representation::representation_at))]
pub(crate) fn read<'a>(
    alloc: Global,
    table: &DynamicTable,
    first: u8,
    bytes: &'a [u8],
) -> Result<(Representation, &'a [u8]), HpackFault>
    ensures { Gives (λ x. (representation_view x.0, x.1.now)) result
        (representation_at table.now first bytes.now) }
{
    match first {
        0..=15 => read_literal(
            alloc,
            table,
            Indexing::Without,
            LITERAL_PREFIX,
            first,
            bytes,
        ),
        16..=31 => read_literal(
            alloc,
            table,
            Indexing::Never,
            LITERAL_PREFIX,
            first - 16,
            bytes,
        ),
        32..=63 => {
            let (size, rest) = integer::read(SIZE_PREFIX, first - 32, bytes)?;
            Ok((Representation::SizeUpdate(size), rest))
        }
        64..=127 => read_literal(
            alloc,
            table,
            Indexing::Incremental,
            INCREMENTAL_PREFIX,
            first - 64,
            bytes,
        ),
        128..=255 => {
            let (index, rest) = integer::read(INDEXED_PREFIX, first - 128, bytes)?;
            Ok((Representation::Indexed(index), rest))
        }
    }
}

/// A literal field whose index has this in its prefix.
#[tactic(auto, unfolding(crate::specs::Representation::literal_at))]
fn read_literal<'a>(
    alloc: Global,
    table: &DynamicTable,
    indexing: Indexing,
    full: u8,
    prefix: u8,
    bytes: &'a [u8],
) -> Result<(Representation, &'a [u8]), HpackFault>
    ensures { Gives (λ x. (representation_view x.0, x.1.now)) result
        (literal_at table.now indexing full prefix bytes.now) }
{
    let (index, rest) = integer::read(full, prefix, bytes)?;
    let (name, rest) = read_name(alloc, table, index, rest)?;
    let (value, rest) = text::read(alloc, rest)?;
    Ok((Representation::Literal(indexing, name, value), rest))
}

/// The name of a literal field with this index: where it is 0, the string that follows.
#[tactic(auto, unfolding(crate::specs::Representation::name_at))]
fn read_name<'a>(
    alloc: Global,
    table: &DynamicTable,
    index: u32,
    bytes: &'a [u8],
) -> Result<(Name, &'a [u8]), HpackFault>
    ensures { Gives (λ x. (name_view x.0, x.1.now)) result (name_at table.now index bytes.now) }
{
    if index > 0 {
        index::find(table, index)?;
        return Ok((Name::Indexed(index), bytes));
    }
    let (text, rest) = text::read(alloc, bytes)?;
    Ok((Name::New(text), rest))
}
