//! What every message has: how its fields are checked, read and written, and from these how it is
//! encoded and decoded.

ghost use Rattle.std.specs.Prelude.{◌≡◌, ◌++◌, ℕ, List, Bool, true, Result, Ok, IfOk, IsOk, OnOk};
ghost use Rattle.rx_base.specs.Results.{Gives};
ghost use Rattle.rx_wire.specs.Values.{Field};
ghost use Rattle.rx_wire.specs.Fields.{SpellsFields, placed_before};
ghost use Rattle.rx_codec.specs.Decoding.{Means, decoded, formed};
ghost use Rattle.rx_codec.specs.FieldBytes.{fields_bytes, fields_in};
ghost use Rattle.rx_codec.specs.Parts.{HasParts, Part, field_checked};
ghost use Rattle.rx_codec.specs.declared.faults.MessageFault.{MessageFault};
ghost use Rattle.rx_codec.specs.declared.faults.MessageFault.TheVariants.{NoMemory};

use crate::checking::check_all;
use crate::faults::MessageFault;
use crate::field_list::FieldList;
use crate::writer::Writer;
use rx_base::NoMemory;
use rx_wire::{Fields, Value, WireFault};
use std::alloc::Global;

/// Which fields of a message are text, and which are messages.
pub trait Shape {
    ghost parts: { ℕ → Part };
}

/// A message of the Remote Execution API.
pub trait Message: Shape + Sized + Drop {
    /// The fields that are written for a message, in the order of their numbers.
    ghost fields: { Self → List Field };

    /// The message that fields mean.
    ghost from: { List Field → Result Self MessageFault };

    /// Whether these bytes are the one form of the message, where it has but one.
    ghost is_canonical: { List ℕ → Self → Bool };

    /// Which messages are read again as they were written.
    ghost IsReadable: { Self → Type 0 };

    /// Whether the field that was read last is text, or a message, where it has to be.
    fn check_field(number: u32, value: Value<'_>, read: &Fields<'_>) -> Result<(), WireFault>
        ensures { result ≡ field_checked Self.parts read.now.bytes
            (placed_before number value.entry read.now) };

    /// The message that these fields mean.
    fn from_fields(alloc: Global, list: &FieldList<'_, Self>) -> Result<Self, MessageFault>
        ensures { Gives NoMemory (λ x. x) result (from list.now) };

    /// Writes the message's fields.
    fn write(&self, alloc: Global, out: &mut Writer<Self>) -> Result<(), NoMemory>
        ensures written { OnOk result (out.new ≡ out.old ++ fields self.now) }
        ensures again { IsOk result → IsReadable self.now → from (fields self.now) ≡ Ok self.now }
        // What is read again is written in the one form, where it has but one.
        ensures form { IsOk result → IsReadable self.now →
            fields_in (fields_bytes (fields self.now)) ≡ fields self.now →
            is_canonical (fields_bytes (fields self.now)) self.now ≡ true };

    /// Whether these bytes are the one form of this message.
    fn has_one_form(&self, alloc: Global, bytes: &[u8]) -> Result<bool, NoMemory>
        ensures { IfOk result (λ one. one ≡ is_canonical bytes.now self.now) };

    /// The message's bytes: its fields in the order of their numbers, defaults left out.
    final fn encode(&self, alloc: Global) -> Result<Vec<u8>, NoMemory>
        ensures bytes { IfOk result (λ bytes. bytes.items ≡ fields_bytes (fields self.now)) }
        // What is written is read again.
        ensures again { IfOk result (λ bytes. IsReadable self.now →
            decoded Self.parts from is_canonical bytes.items ≡ Ok self.now) }
    {
        let mut out = Writer::new(alloc);
        self.write(alloc, &mut out)?;
        Ok(out.finish())
    }

    /// The message of some bytes.
    final fn decode(alloc: Global, bytes: &[u8]) -> Result<Self, MessageFault>
        ensures exact { Gives NoMemory (λ x. x) result
            (decoded Self.parts from is_canonical bytes.now) }
        // What is read is spelled so.
        ensures spelled { IfOk result (λ message. Means Self.parts from bytes.now message) }
        // Fields in any spelling are read by what they mean.
        ensures any { (list : List Field) → SpellsFields list bytes.now → HasParts Self.parts list →
            Gives NoMemory (λ x. x) result (formed is_canonical bytes.now (from list)) }
    {
        decode_exactly(alloc, bytes)
    }
}

/// The message of some bytes, or the first refusal: that of the wire format, a value, the form.
fn decode_exactly<M: Message>(alloc: Global, bytes: &[u8]) -> Result<M, MessageFault>
    ensures { Gives NoMemory (λ x. x) result (decoded M.parts M.from M.is_canonical bytes.now) }
{
    check_all::<M>(Fields::new(bytes))?;
    let fields = FieldList::read(alloc, bytes)?;
    let message = M::from_fields(alloc, &fields)?;
    if message.has_one_form(alloc, bytes)? {
        Ok(message)
    } else {
        Err(MessageFault::NotCanonical)
    }
}
