//! Fields, read one after the other.

ghost use Rattle.std.specs.Prelude.{◌≡◌, ◌+◌, ◌++◌, List, ℕ, drop, length, take, IfOk, IfSome};
ghost use Rattle.rx_wire.specs.Cursor.{before};
ghost use Rattle.rx_wire.specs.Values.{Field, field_of};
ghost use Rattle.rx_wire.specs.Fields.{Next, Placed, Reads, ReadsAll, SpellsField, SpellsFields, IsField, IsInside, fields_of};

use crate::faults::WireFault;
use crate::found::read_field;
use crate::values::Value;
use std::marker::Model;

/// The fields of some bytes, from a place on.
#[derive(Debug, Drop)]
pub struct Fields<'a> {
    bytes: &'a [u8],
    at: usize,
    behind_tag: usize,
    content: usize,
}

impl<'a> Model for Fields<'a> {
    ghost use Rattle.std.specs.Prelude.{◌≤◌, length};
    ghost use Rattle.rx_wire.specs.Cursor.{Cursor};

    ghost Value = { Cursor };

    ghost view = { λ f. record { bytes = f.bytes.now; at = f.at; behind_tag = f.behind_tag; content = f.content } };

    ghost invariant = { λ f. (f.at ≤ length f.bytes.now) × (f.content ≤ f.at) };
}

impl<'a> Fields<'a> {
    /// Before the first field of these bytes.
    pub fn new(bytes: &'a [u8]) -> Fields<'a>
        ensures start { result ≡ before bytes.now 0 }
        // What all calls of `next` read up to the end is spelled so, and what is spelled so is read.
        ensures spelled { (found : List Placed) → ReadsAll bytes.now 0 found None →
            SpellsFields (fields_of found) bytes.now }
        ensures again { (fields : List Field) → SpellsFields fields bytes.now →
            (found : List Placed) × ReadsAll bytes.now 0 found None × (fields_of found ≡ fields) }
    {
        Fields {
            bytes,
            at: 0,
            behind_tag: 0,
            content: 0,
        }
    }

    /// The next field, or `None` at the end. It takes no memory. After a refusal the same one
    /// comes again.
    pub fn next(&mut self) -> Result<Option<(u32, Value<'a>)>, WireFault>
        // Which field it is and where, the end, or which fault.
        ensures exact { Next self.old result self.new }
        // What is read is spelled so.
        ensures found { IfOk result (λ next. IfSome next (λ f.
            Reads self.old.bytes self.old.at self.new.at (field_of f.0 f.1))) }
        // What is spelled so is read.
        ensures only { (f : Field) (text rest : List ℕ) → SpellsField f text →
            drop self.old.at self.old.bytes ≡ text ++ rest
            → IsField f result × (self.new.at ≡ self.old.at + length text) }
        ensures inside { IfOk result (λ next. IfSome next (λ f.
            IsInside f.1 self.new.bytes self.new.content self.new.at)) }
    {
        if self.at == self.bytes.len() {
            return Ok(None);
        }
        match read_field(self.bytes, self.at) {
            Ok(found) => {
                self.at = found.end;
                self.behind_tag = found.behind_tag;
                self.content = found.content;
                Ok(Some((found.number, found.value)))
            }
            Err(fault) => Err(fault),
        }
    }

    /// The offset behind the tag of the field that was read last: that of its length, where it is
    /// a string, bytes or a message. `BadUtf8` points there.
    pub fn behind_tag(&self) -> usize
        ensures { result ≡ self.now.behind_tag }
    {
        self.behind_tag
    }

    /// The fields of the message that the field that was read last holds. Their offsets count on in
    /// the same bytes.
    pub fn message(&self) -> Fields<'a>
        ensures { result ≡ before (take self.now.at self.now.bytes) self.now.content }
    {
        let (bytes, _) = self.bytes.split_at(self.at);
        Fields {
            bytes,
            at: self.content,
            behind_tag: self.content,
            content: self.content,
        }
    }
}
