//! Bytes as they are sent and fetched (`google/bytestream/bytestream.proto`, Write and Read).

use crate::numbers::{read_request, read_response, write_request, write_response};
use rx_base::{Bytes, NoMemory, Text};
use rx_codec::{FieldList, Message, MessageFault, Shape, Writer, check_text};
use rx_wire::{Fields, Value, WireFault};
use std::alloc::Global;

/// A piece of the bytes of an upload, a message of ByteStream/Write.
#[derive(Debug, Drop)]
pub struct WriteRequest {
    /// What is uploaded; later pieces may leave it empty.
    pub resource_name: Text,
    /// Where in the upload the piece begins, in bytes.
    pub write_offset: i64,
    /// Whether this is the last piece.
    pub finish_write: bool,
    /// The field `data`.
    pub body: Bytes,
}

impl Shape for WriteRequest {
    ghost use Rattle.rx_exec_messages.specs.Streams.{write_request_parts};

    ghost parts = { write_request_parts };
}

impl Message for WriteRequest {
    ghost use Rattle.rx_codec.specs.Decoding.{any_form};
    ghost use Rattle.rx_exec_messages.specs.Streams.{write_request_fields, write_request_from};
    ghost use Rattle.rx_exec_messages.specs.Streams.{write_request_is_readable};

    ghost fields = { write_request_fields };

    ghost from = { write_request_from };

    ghost is_canonical = { any_form };

    ghost IsReadable = { write_request_is_readable };

    #[tactic(auto, unfolding(rx_codec::specs::Parts::part_checked))]
    fn check_field(number: u32, value: Value<'_>, read: &Fields<'_>) -> Result<(), WireFault> {
        match number {
            write_request::RESOURCE_NAME => check_text(number, value, read),
            _ => Ok(()),
        }
    }

    #[tactic(auto, unfolding(crate::specs::Streams::write_request_from))]
    fn from_fields(
        alloc: Global,
        list: &FieldList<'_, WriteRequest>,
    ) -> Result<WriteRequest, MessageFault> {
        let resource_name = list.text(alloc, write_request::RESOURCE_NAME)?;
        let write_offset = list.int64(write_request::WRITE_OFFSET);
        let finish_write = list.truth(write_request::FINISH_WRITE);
        let body = list.bytes(alloc, write_request::DATA)?;
        Ok(WriteRequest {
            resource_name,
            write_offset,
            finish_write,
            body,
        })
    }

    #[tactic(auto, unfolding(crate::specs::Streams::write_request_fields))]
    fn write(&self, alloc: Global, out: &mut Writer<WriteRequest>) -> Result<(), NoMemory> {
        let write_offset = self.write_offset;
        out.text(write_request::RESOURCE_NAME, self.resource_name.as_str())?;
        out.int64(write_request::WRITE_OFFSET, write_offset)?;
        out.truth(write_request::FINISH_WRITE, self.finish_write)?;
        out.bytes(write_request::DATA, self.body.as_slice())
    }

    fn has_one_form(&self, alloc: Global, bytes: &[u8]) -> Result<bool, NoMemory> {
        Ok(true)
    }
}

/// The answer to an upload.
#[derive(Debug, Drop)]
pub struct WriteResponse {
    /// So many bytes the server has. It is -1 for a compressed upload whose blob is there already.
    pub committed_size: i64,
}

impl Shape for WriteResponse {
    ghost use Rattle.rx_exec_messages.specs.Streams.{write_response_parts};

    ghost parts = { write_response_parts };
}

impl Message for WriteResponse {
    ghost use Rattle.rx_codec.specs.Decoding.{any_form};
    ghost use Rattle.rx_exec_messages.specs.Streams.{write_response_fields, write_response_from};
    ghost use Rattle.rx_exec_messages.specs.Streams.{write_response_is_readable};

    ghost fields = { write_response_fields };

    ghost from = { write_response_from };

    ghost is_canonical = { any_form };

    ghost IsReadable = { write_response_is_readable };

    #[tactic(auto, unfolding(rx_codec::specs::Parts::part_checked))]
    fn check_field(number: u32, value: Value<'_>, read: &Fields<'_>) -> Result<(), WireFault> {
        Ok(())
    }

    #[tactic(auto, unfolding(crate::specs::Streams::write_response_from))]
    fn from_fields(
        alloc: Global,
        list: &FieldList<'_, WriteResponse>,
    ) -> Result<WriteResponse, MessageFault> {
        let committed_size = list.int64(write_response::COMMITTED_SIZE);
        Ok(WriteResponse { committed_size })
    }

    #[tactic(auto, unfolding(crate::specs::Streams::write_response_fields))]
    fn write(&self, alloc: Global, out: &mut Writer<WriteResponse>) -> Result<(), NoMemory> {
        let committed_size = self.committed_size;
        out.int64(write_response::COMMITTED_SIZE, committed_size)
    }

    fn has_one_form(&self, alloc: Global, bytes: &[u8]) -> Result<bool, NoMemory> {
        Ok(true)
    }
}

/// The call ByteStream/Read: bytes are asked for.
#[derive(Debug, Drop)]
pub struct ReadRequest {
    /// What is to be read.
    pub resource_name: Text,
    /// Where to begin, in bytes.
    pub read_offset: i64,
    /// How many bytes at most, and 0 for no limit.
    pub read_limit: i64,
}

impl Shape for ReadRequest {
    ghost use Rattle.rx_exec_messages.specs.Streams.{read_request_parts};

    ghost parts = { read_request_parts };
}

impl Message for ReadRequest {
    ghost use Rattle.rx_codec.specs.Decoding.{any_form};
    ghost use Rattle.rx_exec_messages.specs.Streams.{read_request_fields, read_request_from};
    ghost use Rattle.rx_exec_messages.specs.Streams.{read_request_is_readable};

    ghost fields = { read_request_fields };

    ghost from = { read_request_from };

    ghost is_canonical = { any_form };

    ghost IsReadable = { read_request_is_readable };

    #[tactic(auto, unfolding(rx_codec::specs::Parts::part_checked))]
    fn check_field(number: u32, value: Value<'_>, read: &Fields<'_>) -> Result<(), WireFault> {
        match number {
            read_request::RESOURCE_NAME => check_text(number, value, read),
            _ => Ok(()),
        }
    }

    #[tactic(auto, unfolding(crate::specs::Streams::read_request_from))]
    fn from_fields(
        alloc: Global,
        list: &FieldList<'_, ReadRequest>,
    ) -> Result<ReadRequest, MessageFault> {
        let resource_name = list.text(alloc, read_request::RESOURCE_NAME)?;
        let read_offset = list.int64(read_request::READ_OFFSET);
        let read_limit = list.int64(read_request::READ_LIMIT);
        Ok(ReadRequest {
            resource_name,
            read_offset,
            read_limit,
        })
    }

    #[tactic(auto, unfolding(crate::specs::Streams::read_request_fields))]
    fn write(&self, alloc: Global, out: &mut Writer<ReadRequest>) -> Result<(), NoMemory> {
        let read_offset = self.read_offset;
        let read_limit = self.read_limit;
        out.text(read_request::RESOURCE_NAME, self.resource_name.as_str())?;
        out.int64(read_request::READ_OFFSET, read_offset)?;
        out.int64(read_request::READ_LIMIT, read_limit)
    }

    fn has_one_form(&self, alloc: Global, bytes: &[u8]) -> Result<bool, NoMemory> {
        Ok(true)
    }
}

/// A piece of the bytes that were asked for.
#[derive(Debug, Drop)]
pub struct ReadResponse {
    /// The field `data`.
    pub body: Bytes,
}

impl Shape for ReadResponse {
    ghost use Rattle.rx_exec_messages.specs.Streams.{read_response_parts};

    ghost parts = { read_response_parts };
}

impl Message for ReadResponse {
    ghost use Rattle.rx_codec.specs.Decoding.{any_form};
    ghost use Rattle.rx_exec_messages.specs.Streams.{read_response_fields, read_response_from};
    ghost use Rattle.rx_exec_messages.specs.Streams.{read_response_is_readable};

    ghost fields = { read_response_fields };

    ghost from = { read_response_from };

    ghost is_canonical = { any_form };

    ghost IsReadable = { read_response_is_readable };

    #[tactic(auto, unfolding(rx_codec::specs::Parts::part_checked))]
    fn check_field(number: u32, value: Value<'_>, read: &Fields<'_>) -> Result<(), WireFault> {
        Ok(())
    }

    #[tactic(auto, unfolding(crate::specs::Streams::read_response_from))]
    fn from_fields(
        alloc: Global,
        list: &FieldList<'_, ReadResponse>,
    ) -> Result<ReadResponse, MessageFault> {
        let body = list.bytes(alloc, read_response::DATA)?;
        Ok(ReadResponse { body })
    }

    #[tactic(auto, unfolding(crate::specs::Streams::read_response_fields))]
    fn write(&self, alloc: Global, out: &mut Writer<ReadResponse>) -> Result<(), NoMemory> {
        out.bytes(read_response::DATA, self.body.as_slice())
    }

    fn has_one_form(&self, alloc: Global, bytes: &[u8]) -> Result<bool, NoMemory> {
        Ok(true)
    }
}
