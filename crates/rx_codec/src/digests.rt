//! A Digest as a message (`remote_execution.proto`, Digest): the hash as 64 lower-case hexadecimal
//! digits, and the size.

ghost use Rattle.std.specs.Prelude.{◌≡◌, IfOk, length, string_bytes};
ghost use Rattle.hex.specs.Hex.{IsBytes, encode_lower};
ghost use Rattle.rx_codec.specs.Digests.{digest_of_parts};

use crate::checking::check_text;
use crate::faults::MessageFault;
use crate::field_list::FieldList;
use crate::message::{Message, Shape};
use crate::writer::Writer;
use rx_base::{Digest, NoMemory, read_hash};
use rx_wire::{Fields, Value, WireFault};
use std::alloc::Global;

/// The number of the field `hash`.
const HASH: u32 = 1;

/// The number of the field `size_bytes`.
const SIZE_BYTES: u32 = 2;

impl Shape for Digest {
    ghost use Rattle.rx_codec.specs.Digests.{digest_parts};

    ghost parts = { digest_parts };
}

impl Message for Digest {
    ghost use Rattle.rx_codec.specs.Decoding.{any_form};
    ghost use Rattle.rx_codec.specs.Digests.{digest_fields, digest_from, digest_is_readable};

    ghost fields = { digest_fields };

    ghost from = { digest_from };

    ghost is_canonical = { any_form };

    ghost IsReadable = { digest_is_readable };

    #[tactic(auto, unfolding(crate::specs::Parts::part_checked))]
    fn check_field(number: u32, value: Value<'_>, read: &Fields<'_>) -> Result<(), WireFault> {
        match number {
            HASH => check_text(number, value, read),
            _ => Ok(()),
        }
    }

    #[tactic(auto, unfolding(crate::specs::Digests::digest_from))]
    fn from_fields(alloc: Global, list: &FieldList<'_, Digest>) -> Result<Digest, MessageFault> {
        let hash = list.text(alloc, HASH)?;
        digest_of_parts(hash.as_str(), list.number(SIZE_BYTES))
    }

    #[tactic(auto, unfolding(crate::specs::Digests::digest_fields))]
    fn write(&self, alloc: Global, out: &mut Writer<Digest>) -> Result<(), NoMemory> {
        let hash = hash_text(alloc, self.hash)?;
        out.text(HASH, hash.as_str())?;
        out.number(SIZE_BYTES, self.size)
    }

    fn has_one_form(&self, alloc: Global, bytes: &[u8]) -> Result<bool, NoMemory> {
        Ok(true)
    }
}

/// Sizes are below this, since `size_bytes` is an int64.
const SIZES: u64 = 1 << 63;

/// The digest of a hash's text and a size.
fn digest_of_parts(hash: &str, size: u64) -> Result<Digest, MessageFault>
    ensures { result ≡ digest_of_parts hash.now size }
{
    match read_hash(hash) {
        Ok(hash) if size < SIZES => Ok(Digest { hash, size }),
        Ok(_) => Err(MessageFault::BadValue(2)),
        Err(_) => Err(MessageFault::BadValue(1)),
    }
}

/// A hash as text. That it has 32 bytes is what its type says.
fn hash_text(alloc: Global, hash: [u8; 32]) -> Result<String, NoMemory>
    ensures text { IfOk result (λ text. string_bytes text ≡ encode_lower hash) }
    ensures len { length hash ≡ 32 }
    ensures bytes { IsBytes hash }
{
    let _bytes: &[u8] = &hash;
    hex::encode(alloc, hash)
}
