//! The names of blobs that are read and written as streams (`remote_execution.proto`, the service ContentAddressableStorage).

ghost use Rattle.std.specs.Prelude.{◌≡◌, ◌++◌, IfOk, OnOk, string_bytes};
ghost use Rattle.uuid.specs.Text.{hyphenated_text, lower};
ghost use Rattle.rx_grpc.specs.Resources.{blob_name, read_name, within, write_name};

use itoa::Buffer;
use rx_base::{Digest, NoMemory, Text};
use std::alloc::Global;
use uuid::Uuid;

/// How many bytes the text of a UUID has (RFC 9562 4).
const UUID_LENGTH: usize = 36;

/// Begins a name with that of the instance, where the farm has several.
fn begin_name(alloc: Global, instance: &Text) -> Result<String, NoMemory>
    ensures { IfOk result (λ name. string_bytes name ≡ within instance.now) }
{
    let mut name = String::from_str(alloc, instance.as_str())?;
    if !instance.is_empty() {
        name.push_str("/")?;
    }
    Ok(name)
}

/// Adds the name of a blob: `blobs/HASH/SIZE`.
#[tactic(auto, unfolding(crate::specs::Resources::blob_name))]
fn push_blob(alloc: Global, name: &mut String, digest: &Digest) -> Result<(), NoMemory>
    ensures { OnOk result (string_bytes name.new ≡ string_bytes name.old ++ blob_name digest.now) }
{
    let hash = digest.hash_text(alloc)?;
    let mut buffer = Buffer::new();
    name.push_str("blobs/")?;
    name.push_str(&hash)?;
    name.push_str("/")?;
    name.push_str(buffer.format(digest.size))
}

/// The name by which a blob is read: `INSTANCE/blobs/HASH/SIZE`.
#[tactic(auto, unfolding(crate::specs::Resources::read_name))]
pub fn read_name(alloc: Global, instance: &Text, digest: &Digest) -> Result<Text, NoMemory>
    ensures { IfOk result (λ name. name ≡ read_name instance.now digest.now) }
{
    let mut name = begin_name(alloc, instance)?;
    push_blob(alloc, &mut name, digest)?;
    Ok(Text::from_string(name))
}

/// Adds the text of a UUID.
fn push_upload(name: &mut String, upload: Uuid) -> Result<(), NoMemory>
    ensures { OnOk result
        (string_bytes name.new ≡ string_bytes name.old ++ hyphenated_text lower upload) }
{
    let mut buffer = [0u8; UUID_LENGTH];
    name.push_str(upload.hyphenated().encode_lower(&mut buffer))
}

/// The name by which a blob is written: `INSTANCE/uploads/UUID/blobs/HASH/SIZE`.
#[tactic(auto, unfolding(crate::specs::Resources::write_name))]
pub fn write_name(
    alloc: Global,
    instance: &Text,
    upload: Uuid,
    digest: &Digest,
) -> Result<Text, NoMemory>
    ensures { IfOk result (λ name.
        name ≡ write_name instance.now (hyphenated_text lower upload) digest.now) }
{
    let mut name = begin_name(alloc, instance)?;
    name.push_str("uploads/")?;
    push_upload(&mut name, upload)?;
    name.push_str("/")?;
    push_blob(alloc, &mut name, digest)?;
    Ok(Text::from_string(name))
}
