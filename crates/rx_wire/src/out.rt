//! Fields, written one after the other. A call that lacks memory leaves all as before. Field
//! numbers are from 1 to 2^29 - 1.

ghost use Rattle.std.specs.Prelude.{◌≡◌, ◌≤◌, ◌<◌, ◌^◌, ◌++◌, [], length, OnOk, OnErr};
ghost use Rattle.rx_wire.specs.Out.{AddsField, Appends, IsFront, bytes_field, one_bytes, one_varint, varint_field};
ghost use Rattle.rx_wire.specs.Integers.{int32_of, sign_extended};

use crate::integers::sign_extended;
use crate::varints::push_varint;
use rx_base::NoMemory;
use std::alloc::Global;
use std::marker::Model;

/// The fields so far, seen as their bytes.
#[derive(Debug, Drop)]
pub struct Out {
    bytes: Vec<u8>,
}

impl Model for Out {
    ghost use Rattle.std.specs.Prelude.{List, ℕ};

    ghost Value = { List ℕ };

    ghost view = { λ o. o.bytes.items };
}

impl Out {
    /// No field yet.
    pub fn new(alloc: Global) -> Out
        ensures { result ≡ [] }
    {
        Out {
            bytes: Vec::new(alloc),
        }
    }

    /// The bytes of the fields.
    pub fn finish(self) -> Vec<u8>
        ensures { result.items ≡ self }
    {
        self.bytes
    }

    /// One more field that is a varint, in as few bytes as it takes.
    pub fn varint(&mut self, number: u32, value: u64) -> Result<(), NoMemory>
        requires above { 0 < number }
        requires below { number < 2 ^ 29 }
        ensures ok { OnOk result (self.new ≡ self.old ++ varint_field number value) }
        ensures spelled { OnOk result (Appends self.old self.new (one_varint number value)) }
        ensures fields { OnOk result (AddsField self.old self.new (one_varint number value)) }
        ensures err { OnErr result (self.new ≡ self.old) }
    {
        let len = self.bytes.len();
        let written = push_varint_field(&mut self.bytes, number, value);
        if written.is_err() {
            self.bytes.truncate(len);
        }
        written
    }

    /// One more field that is an int32. A negative number takes ten bytes.
    pub fn int32(&mut self, number: u32, value: i32) -> Result<(), NoMemory>
        requires above { 0 < number }
        requires below { number < 2 ^ 29 }
        ensures ok { OnOk result
            (self.new ≡ self.old ++ varint_field number (sign_extended value)) }
        ensures fields { OnOk result
            (AddsField self.old self.new (one_varint number (sign_extended value))) }
        ensures err { OnErr result (self.new ≡ self.old) }
        // What is read of it is the number again.
        ensures again { int32_of (sign_extended value) ≡ value }
    {
        self.varint(number, sign_extended(value))
    }

    /// One more field that is bytes, a string or a message, in its length and bytes.
    pub fn bytes(&mut self, number: u32, value: &[u8]) -> Result<(), NoMemory>
        requires above { 0 < number }
        requires below { number < 2 ^ 29 }
        ensures ok { OnOk result (self.new ≡ self.old ++ bytes_field number value.now) }
        ensures spelled { OnOk result (Appends self.old self.new (one_bytes number value.now)) }
        ensures fields { OnOk result (AddsField self.old self.new (one_bytes number value.now)) }
        ensures err { OnErr result (self.new ≡ self.old) }
    {
        let len = self.bytes.len();
        let written = push_bytes_field(&mut self.bytes, number, value);
        if written.is_err() {
            self.bytes.truncate(len);
        }
        written
    }
}

/// Writes a tag of wire type 0 and the value. An `Err` may leave some of the bytes there.
#[tactic(auto, unfolding(crate::specs::Out::varint_field))]
fn push_varint_field(out: &mut Vec<u8>, number: u32, value: u64) -> Result<(), NoMemory>
    requires { number < 2 ^ 29 }
    ensures ok { OnOk result (out.new.items ≡ out.old.items ++ varint_field number value) }
    ensures front { IsFront out.old.items out.new.items }
{
    push_varint(out, u64::from(number) * 8)?;
    push_varint(out, value)
}

/// Writes a tag of wire type 2, the length and the bytes. An `Err` may leave some of them there.
#[tactic(auto, unfolding(crate::specs::Out::bytes_field))]
fn push_bytes_field(out: &mut Vec<u8>, number: u32, value: &[u8]) -> Result<(), NoMemory>
    requires { number < 2 ^ 29 }
    ensures ok { OnOk result (out.new.items ≡ out.old.items ++ bytes_field number value.now) }
    ensures front { IsFront out.old.items out.new.items }
    ensures len { length value.now < 2 ^ 64 }
{
    push_varint(out, u64::from(number) * 8 + 2)?;
    push_varint(out, value.len() as u64)?;
    out.extend_from_slice(value)
}
