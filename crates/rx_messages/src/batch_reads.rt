//! Small blobs that are read in one call (`remote_execution.proto`, BatchReadBlobs).

use crate::numbers::{batch_read_blobs_request, batch_read_blobs_response, blob_read};
use crate::statuses::Status;
use rx_base::{Bytes, Digest, Items, NoMemory, Text};
use rx_codec::{FieldList, Message, MessageFault, Shape, Writer, check_message, check_text};
use rx_wire::{Fields, Value, WireFault};
use std::alloc::Global;

/// The blobs that are wanted.
#[derive(Debug, Drop)]
pub struct BatchReadBlobsRequest {
    pub instance_name: Text,
    pub digests: Items<Digest>,
}

impl Shape for BatchReadBlobsRequest {
    ghost use Rattle.rx_messages.specs.Batches.{batch_read_blobs_request_parts};

    ghost parts = { batch_read_blobs_request_parts };
}

impl Message for BatchReadBlobsRequest {
    ghost use Rattle.rx_codec.specs.Decoding.{any_form};
    ghost use Rattle.rx_messages.specs.Batches.{batch_read_blobs_request_fields, batch_read_blobs_request_from, batch_read_blobs_request_is_readable};

    ghost fields = { batch_read_blobs_request_fields };

    ghost from = { batch_read_blobs_request_from };

    ghost is_canonical = { any_form };

    ghost IsReadable = { batch_read_blobs_request_is_readable };

    #[tactic(auto, unfolding(rx_codec::specs::Parts::part_checked))]
    fn check_field(number: u32, value: Value<'_>, read: &Fields<'_>) -> Result<(), WireFault> {
        match number {
            batch_read_blobs_request::INSTANCE_NAME => check_text(number, value, read),
            batch_read_blobs_request::DIGESTS => check_message::<Digest>(number, value, read),
            _ => Ok(()),
        }
    }

    #[tactic(auto, unfolding(crate::specs::Batches::batch_read_blobs_request_from))]
    fn from_fields(
        alloc: Global,
        list: &FieldList<'_, BatchReadBlobsRequest>,
    ) -> Result<BatchReadBlobsRequest, MessageFault> {
        let instance_name = list.text(alloc, batch_read_blobs_request::INSTANCE_NAME)?;
        let digests = list.messages(alloc, batch_read_blobs_request::DIGESTS)?;
        Ok(BatchReadBlobsRequest {
            instance_name,
            digests,
        })
    }

    #[tactic(auto, unfolding(crate::specs::Batches::batch_read_blobs_request_fields))]
    fn write(
        &self,
        alloc: Global,
        out: &mut Writer<BatchReadBlobsRequest>,
    ) -> Result<(), NoMemory> {
        out.text(
            batch_read_blobs_request::INSTANCE_NAME,
            self.instance_name.as_str(),
        )?;
        out.messages(alloc, batch_read_blobs_request::DIGESTS, &self.digests)
    }

    fn has_one_form(&self, alloc: Global, bytes: &[u8]) -> Result<bool, NoMemory> {
        Ok(true)
    }
}

/// A blob that was wanted, BatchReadBlobsResponse.Response. Its body is the field `data`.
#[derive(Debug, Drop)]
pub struct BlobRead {
    pub digest: Option<Digest>,
    pub body: Bytes,
    pub status: Option<Status>,
}

impl Shape for BlobRead {
    ghost use Rattle.rx_messages.specs.Batches.{blob_read_parts};

    ghost parts = { blob_read_parts };
}

impl Message for BlobRead {
    ghost use Rattle.rx_codec.specs.Decoding.{any_form};
    ghost use Rattle.rx_messages.specs.Batches.{blob_read_fields, blob_read_from, blob_read_is_readable};

    ghost fields = { blob_read_fields };

    ghost from = { blob_read_from };

    ghost is_canonical = { any_form };

    ghost IsReadable = { blob_read_is_readable };

    #[tactic(auto, unfolding(rx_codec::specs::Parts::part_checked))]
    fn check_field(number: u32, value: Value<'_>, read: &Fields<'_>) -> Result<(), WireFault> {
        match number {
            blob_read::DIGEST => check_message::<Digest>(number, value, read),
            blob_read::STATUS => check_message::<Status>(number, value, read),
            _ => Ok(()),
        }
    }

    #[tactic(auto, unfolding(crate::specs::Batches::blob_read_from))]
    fn from_fields(
        alloc: Global,
        list: &FieldList<'_, BlobRead>,
    ) -> Result<BlobRead, MessageFault> {
        let digest = list.message(alloc, blob_read::DIGEST)?;
        let body = list.bytes(alloc, blob_read::DATA)?;
        let status = list.message(alloc, blob_read::STATUS)?;
        Ok(BlobRead {
            digest,
            body,
            status,
        })
    }

    #[tactic(auto, unfolding(crate::specs::Batches::blob_read_fields))]
    fn write(&self, alloc: Global, out: &mut Writer<BlobRead>) -> Result<(), NoMemory> {
        out.message(alloc, blob_read::DIGEST, &self.digest)?;
        out.bytes(blob_read::DATA, self.body.as_slice())?;
        out.message(alloc, blob_read::STATUS, &self.status)
    }

    fn has_one_form(&self, alloc: Global, bytes: &[u8]) -> Result<bool, NoMemory> {
        Ok(true)
    }
}

/// The blobs that were wanted.
#[derive(Debug, Drop)]
pub struct BatchReadBlobsResponse {
    pub responses: Items<BlobRead>,
}

impl Shape for BatchReadBlobsResponse {
    ghost use Rattle.rx_messages.specs.Batches.{batch_read_blobs_response_parts};

    ghost parts = { batch_read_blobs_response_parts };
}

impl Message for BatchReadBlobsResponse {
    ghost use Rattle.rx_codec.specs.Decoding.{any_form};
    ghost use Rattle.rx_messages.specs.Batches.{batch_read_blobs_response_fields, batch_read_blobs_response_from, batch_read_blobs_response_is_readable};

    ghost fields = { batch_read_blobs_response_fields };

    ghost from = { batch_read_blobs_response_from };

    ghost is_canonical = { any_form };

    ghost IsReadable = { batch_read_blobs_response_is_readable };

    #[tactic(auto, unfolding(rx_codec::specs::Parts::part_checked))]
    fn check_field(number: u32, value: Value<'_>, read: &Fields<'_>) -> Result<(), WireFault> {
        match number {
            batch_read_blobs_response::RESPONSES => check_message::<BlobRead>(number, value, read),
            _ => Ok(()),
        }
    }

    #[tactic(auto, unfolding(crate::specs::Batches::batch_read_blobs_response_from))]
    fn from_fields(
        alloc: Global,
        list: &FieldList<'_, BatchReadBlobsResponse>,
    ) -> Result<BatchReadBlobsResponse, MessageFault> {
        let responses = list.messages(alloc, batch_read_blobs_response::RESPONSES)?;
        Ok(BatchReadBlobsResponse { responses })
    }

    #[tactic(auto, unfolding(crate::specs::Batches::batch_read_blobs_response_fields))]
    fn write(
        &self,
        alloc: Global,
        out: &mut Writer<BatchReadBlobsResponse>,
    ) -> Result<(), NoMemory> {
        out.messages(alloc, batch_read_blobs_response::RESPONSES, &self.responses)
    }

    fn has_one_form(&self, alloc: Global, bytes: &[u8]) -> Result<bool, NoMemory> {
        Ok(true)
    }
}
