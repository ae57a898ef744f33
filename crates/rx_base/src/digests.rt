//! SHA-256 digests with the size of what was hashed, and hashes as text.

ghost use Rattle.std.specs.Prelude.{◌≡◌, ◌↔◌, IfOk, IsOk, IsTrue, length, string_bytes};
ghost use Rattle.sha2.specs.Sha256.{sha256};
ghost use Rattle.std.specs.List.{AllPass};
ghost use Rattle.hex.specs.Hex.{encode_lower};
ghost use Rattle.rx_base.specs.Digests.{digest_of};
ghost use Rattle.rx_base.specs.HashText.{is_lower_digit};

use crate::memory::{NoMemory, TryClone};
use hex::FromHex;
use sha2::Sha256;
use std::alloc::Global;
use thiserror::Error;

/// A SHA-256 hash (FIPS 180-4), and how many bytes were hashed: `remote_execution.proto` Digest.
/// Digests are ordered by the hash's bytes, then by the size.
#[derive(Clone, Copy, Debug, PartialEq, Eq, PartialOrd, Ord)]
pub struct Digest {
    pub hash: [u8; 32],
    pub size: u64,
}

/// The text is not 64 lower-case hexadecimal digits.
#[derive(Clone, Copy, Debug, PartialEq, Eq, Error)]
#[error("not 64 lower-case hexadecimal digits")]
pub struct BadHash;

/// The digest of these bytes. It takes no memory.
pub fn digest_of(bytes: &[u8]) -> Digest
    ensures { result ≡ digest_of bytes.now }
{
    Digest {
        hash: hash_of(bytes),
        size: bytes.len() as u64,
    }
}

/// The hash of these bytes.
fn hash_of(bytes: &[u8]) -> [u8; 32]
    ensures { result ≡ sha256 bytes.now }
{
    <Sha256 as sha2::Digest>::digest(bytes)
}

impl Digest {
    /// The hash as 64 lower-case hexadecimal digits.
    pub fn hash_text(&self, alloc: Global) -> Result<String, NoMemory>
        ensures { IfOk result (λ text. string_bytes text ≡ encode_lower self.now.hash) }
    {
        hex::encode(alloc, self.hash)
    }
}

impl TryClone for Digest {
    fn try_clone(&self, alloc: Global) -> Result<Digest, NoMemory> {
        Ok(*self)
    }
}

/// The hash that 64 lower-case hexadecimal digits stand for. It takes no memory.
pub fn read_hash(text: &str) -> Result<[u8; 32], BadHash>
    ensures read { IfOk result (λ hash. text.now ≡ encode_lower hash) }
    ensures exact { IsOk result ↔ ((length text.now ≡ 64) × AllPass is_lower_digit text.now) }
{
    if !has_lower_digits(text) {
        return Err(BadHash);
    }
    <[u8; 32] as FromHex>::from_hex(text).map_err(|_| BadHash)
}

/// Whether the text has lower-case hexadecimal digits alone.
fn has_lower_digits(text: &str) -> bool
    ensures { IsTrue result ↔ AllPass is_lower_digit text.now }
{
    text.bytes().all(is_lower_digit)
}

/// Whether a byte is a lower-case hexadecimal digit.
fn is_lower_digit(byte: u8) -> bool
    ensures { result ≡ is_lower_digit byte }
{
    matches!(byte, b'0'..=b'9' | b'a'..=b'f')
}
