//! Decoding header blocks (RFC 7541 3.2): what each representation does to the header list and to
//! the dynamic table.

ghost use Rattle.std.specs.Prelude.{[], ◌≡◌, IfOk, List};
ghost use Rattle.rx_hpack.specs.Answers.{Gives};
ghost use Rattle.rx_hpack.specs.Header.{Field, view, views};
ghost use Rattle.rx_hpack.specs.Representation.{name_view, representation_view};
ghost use Rattle.rx_hpack.specs.DynamicTable.{Table};
ghost use Rattle.rx_hpack.specs.Decoder.{Decodes, DecodesBlock, IsBlock, Leaves, Reaches, Ready, StandsFor, applied, named, seen, with_field};

use crate::dynamic_table::{DynamicTable, LARGEST_TABLE};
use crate::fault::HpackFault;
use crate::header::Header;
use crate::header_list::HeaderList;
use crate::representation::{Indexing, Name, Representation};
use crate::{index, representation};
use std::alloc::Global;
use std::marker::Model;

/// Reads the header blocks of one direction of a connection, in their order.
#[derive(Debug, Drop)]
pub struct Decoder {
    table: DynamicTable,
    fault: Option<HpackFault>,
}

impl Model for Decoder {
    ghost use Rattle.rx_hpack.specs.Decoder.{State, state_of};

    ghost Value = { State };

    ghost view = { λ d. state_of d.fault d.table };
}

impl Decoder {
    /// A decoder with an empty dynamic table of 4,096 bytes.
    pub fn new(alloc: Global) -> Decoder
        ensures { result ≡ Ready (record { entries = []; largest = 4096 }) }
    {
        Decoder {
            table: DynamicTable::new(alloc),
            fault: None,
        }
    }

    /// The headers of a whole block, in order. It stops at the first thing that is wrong, and from
    /// then on answers that refusal, since the dynamic tables of the two ends differ then.
    ///
    /// Each byte of the block is read once. What is copied and kept is bounded by [`LARGEST_LIST`]
    /// and by the table's 4,096 bytes.
    ///
    /// [`LARGEST_LIST`]: crate::LARGEST_LIST
    pub fn block(&mut self, alloc: Global, bytes: &[u8]) -> Result<Vec<Header>, HpackFault>
        // The list that is answered is one that the block stands for.
        ensures found { IfOk result
            (λ headers. StandsFor self.old bytes.now (views headers.items) self.new) }
        // A list that the block stands for is answered, unless memory runs out.
        ensures only { (old : Table) (fields : List Field) (new : Table)
            → self.old ≡ Ready old → IsBlock old bytes.now fields new
            → Reaches fields new (seen result) self.new }
        // Which refusal it is, and that it comes again.
        ensures exact { Decodes self.old bytes.now (seen result) self.new }
    {
        self.read(alloc, bytes)
    }

    /// What `block` answers, by the one definition from which its other clauses follow.
    fn read(&mut self, alloc: Global, bytes: &[u8]) -> Result<Vec<Header>, HpackFault>
        ensures { Decodes self.old bytes.now (seen result) self.new }
    {
        if let Some(fault) = self.fault {
            return Err(fault);
        }
        let decoded = decode(alloc, &mut self.table, bytes);
        if let Err(fault) = &decoded {
            self.fault = Some(*fault);
        }
        decoded
    }
}

/// The headers of a whole block.
fn decode(alloc: Global, table: &mut DynamicTable, bytes: &[u8]) -> Result<Vec<Header>, HpackFault>
    ensures { DecodesBlock table.old bytes.now (seen result) table.new }
{
    let mut list = HeaderList::new(alloc);
    let mut left = bytes;
    while let [first, rest @ ..] = left {
        let (read, rest) = representation::read(alloc, table, *first, rest)?;
        apply(alloc, table, &mut list, read)?;
        left = rest;
    }
    Ok(list.into_headers())
}

/// Does what a representation says.
#[tactic(auto, unfolding(crate::specs::Decoder::applied))]
fn apply(
    alloc: Global,
    table: &mut DynamicTable,
    list: &mut HeaderList,
    representation: Representation,
) -> Result<(), HpackFault>
    ensures { Leaves (applied list.old table.old (representation_view representation)) result
        list.new table.new }
{
    match representation {
        Representation::Indexed(index) => {
            let (name, value) = index::find(table, index)?;
            list.push_copy(alloc, name, value)
        }
        Representation::Literal(indexing, name, value) => {
            let name = own_name(alloc, table, name)?;
            keep(alloc, table, list, indexing, Header { name, value })
        }
        Representation::SizeUpdate(size) => {
            if !list.is_empty() || size as usize > LARGEST_TABLE {
                return Err(HpackFault::SizeUpdate);
            }
            table.resize(size as usize);
            Ok(())
        }
    }
}

/// The name of a literal field.
fn own_name(alloc: Global, table: &DynamicTable, name: Name) -> Result<Vec<u8>, HpackFault>
    ensures { Gives (λ text. text.items) result (named table.now (name_view name)) }
{
    match name {
        Name::Indexed(index) => {
            let (name, _) = index::find(table, index)?;
            Ok(Vec::from_slice(alloc, name)?)
        }
        Name::New(text) => Ok(text),
    }
}

/// Keeps a literal field in the list and, where that is asked, in the dynamic table.
fn keep(
    alloc: Global,
    table: &mut DynamicTable,
    list: &mut HeaderList,
    indexing: Indexing,
    header: Header,
) -> Result<(), HpackFault>
    ensures { Leaves (with_field list.old table.old indexing (view header)) result
        list.new table.new }
{
    match indexing {
        Indexing::Incremental => {
            list.push_copy(alloc, &header.name, &header.value)?;
            table.insert(header)?;
            Ok(())
        }
        Indexing::Without | Indexing::Never => list.push(header),
    }
}
