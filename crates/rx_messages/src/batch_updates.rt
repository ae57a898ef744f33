//! Small blobs that are stored in one call (`remote_execution.proto`, BatchUpdateBlobs).

use crate::numbers::{
    batch_update_blobs_request, batch_update_blobs_response, blob_update, blob_updated,
};
use crate::statuses::Status;
use rx_base::{Bytes, Digest, Items, NoMemory, Text};
use rx_codec::{FieldList, Message, MessageFault, Shape, Writer, check_message, check_text};
use rx_wire::{Fields, Value, WireFault};
use std::alloc::Global;

/// A blob to be stored, BatchUpdateBlobsRequest.Request. Its body is the field `data`.
#[derive(Debug, Drop)]
pub struct BlobUpdate {
    pub digest: Option<Digest>,
    pub body: Bytes,
}

impl Shape for BlobUpdate {
    ghost use Rattle.rx_messages.specs.Batches.{blob_update_parts};

    ghost parts = { blob_update_parts };
}

impl Message for BlobUpdate {
    ghost use Rattle.rx_codec.specs.Decoding.{any_form};
    ghost use Rattle.rx_messages.specs.Batches.{blob_update_fields, blob_update_from, blob_update_is_readable};

    ghost fields = { blob_update_fields };

    ghost from = { blob_update_from };

    ghost is_canonical = { any_form };

    ghost IsReadable = { blob_update_is_readable };

    #[tactic(auto, unfolding(rx_codec::specs::Parts::part_checked))]
    fn check_field(number: u32, value: Value<'_>, read: &Fields<'_>) -> Result<(), WireFault> {
        match number {
            blob_update::DIGEST => check_message::<Digest>(number, value, read),
            _ => Ok(()),
        }
    }

    #[tactic(auto, unfolding(crate::specs::Batches::blob_update_from))]
    fn from_fields(
        alloc: Global,
        list: &FieldList<'_, BlobUpdate>,
    ) -> Result<BlobUpdate, MessageFault> {
        let digest = list.message(alloc, blob_update::DIGEST)?;
        let body = list.bytes(alloc, blob_update::DATA)?;
        Ok(BlobUpdate { digest, body })
    }

    #[tactic(auto, unfolding(crate::specs::Batches::blob_update_fields))]
    fn write(&self, alloc: Global, out: &mut Writer<BlobUpdate>) -> Result<(), NoMemory> {
        out.message(alloc, blob_update::DIGEST, &self.digest)?;
        out.bytes(blob_update::DATA, self.body.as_slice())
    }

    fn has_one_form(&self, alloc: Global, bytes: &[u8]) -> Result<bool, NoMemory> {
        Ok(true)
    }
}

/// The blobs to be stored.
#[derive(Debug, Drop)]
pub struct BatchUpdateBlobsRequest {
    pub instance_name: Text,
    pub requests: Items<BlobUpdate>,
}

impl Shape for BatchUpdateBlobsRequest {
    ghost use Rattle.rx_messages.specs.Batches.{batch_update_blobs_request_parts};

    ghost parts = { batch_update_blobs_request_parts };
}

impl Message for BatchUpdateBlobsRequest {
    ghost use Rattle.rx_codec.specs.Decoding.{any_form};
    ghost use Rattle.rx_messages.specs.Batches.{batch_update_blobs_request_fields, batch_update_blobs_request_from, batch_update_blobs_request_is_readable};

    ghost fields = { batch_update_blobs_request_fields };

    ghost from = { batch_update_blobs_request_from };

    ghost is_canonical = { any_form };

    ghost IsReadable = { batch_update_blobs_request_is_readable };

    #[tactic(auto, unfolding(rx_codec::specs::Parts::part_checked))]
    fn check_field(number: u32, value: Value<'_>, read: &Fields<'_>) -> Result<(), WireFault> {
        match number {
            batch_update_blobs_request::INSTANCE_NAME => check_text(number, value, read),
            batch_update_blobs_request::REQUESTS => check_message::<BlobUpdate>(
                number, value, read,
            ),
            _ => Ok(()),
        }
    }

    #[tactic(auto, unfolding(crate::specs::Batches::batch_update_blobs_request_from))]
    fn from_fields(
        alloc: Global,
        list: &FieldList<'_, BatchUpdateBlobsRequest>,
    ) -> Result<BatchUpdateBlobsRequest, MessageFault> {
        let instance_name = list.text(alloc, batch_update_blobs_request::INSTANCE_NAME)?;
        let requests = list.messages(alloc, batch_update_blobs_request::REQUESTS)?;
        Ok(BatchUpdateBlobsRequest {
            instance_name,
            requests,
        })
    }

    #[tactic(auto, unfolding(crate::specs::Batches::batch_update_blobs_request_fields))]
    fn write(
        &self,
        alloc: Global,
        out: &mut Writer<BatchUpdateBlobsRequest>,
    ) -> Result<(), NoMemory> {
        out.text(
            batch_update_blobs_request::INSTANCE_NAME,
            self.instance_name.as_str(),
        )?;
        out.messages(alloc, batch_update_blobs_request::REQUESTS, &self.requests)
    }

    fn has_one_form(&self, alloc: Global, bytes: &[u8]) -> Result<bool, NoMemory> {
        Ok(true)
    }
}

/// How storing a blob ended, BatchUpdateBlobsResponse.Response.
#[derive(Debug, Drop)]
pub struct BlobUpdated {
    pub digest: Option<Digest>,
    pub status: Option<Status>,
}

impl Shape for BlobUpdated {
    ghost use Rattle.rx_messages.specs.Batches.{blob_updated_parts};

    ghost parts = { blob_updated_parts };
}

impl Message for BlobUpdated {
    ghost use Rattle.rx_codec.specs.Decoding.{any_form};
    ghost use Rattle.rx_messages.specs.Batches.{blob_updated_fields, blob_updated_from, blob_updated_is_readable};

    ghost fields = { blob_updated_fields };

    ghost from = { blob_updated_from };

    ghost is_canonical = { any_form };

    ghost IsReadable = { blob_updated_is_readable };

    #[tactic(auto, unfolding(rx_codec::specs::Parts::part_checked))]
    fn check_field(number: u32, value: Value<'_>, read: &Fields<'_>) -> Result<(), WireFault> {
        match number {
            blob_updated::DIGEST => check_message::<Digest>(number, value, read),
            blob_updated::STATUS => check_message::<Status>(number, value, read),
            _ => Ok(()),
        }
    }

    #[tactic(auto, unfolding(crate::specs::Batches::blob_updated_from))]
    fn from_fields(
        alloc: Global,
        list: &FieldList<'_, BlobUpdated>,
    ) -> Result<BlobUpdated, MessageFault> {
        let digest = list.message(alloc, blob_updated::DIGEST)?;
        let status = list.message(alloc, blob_updated::STATUS)?;
        Ok(BlobUpdated { digest, status })
    }

    #[tactic(auto, unfolding(crate::specs::Batches::blob_updated_fields))]
    fn write(&self, alloc: Global, out: &mut Writer<BlobUpdated>) -> Result<(), NoMemory> {
        out.message(alloc, blob_updated::DIGEST, &self.digest)?;
        out.message(alloc, blob_updated::STATUS, &self.status)
    }

    fn has_one_form(&self, alloc: Global, bytes: &[u8]) -> Result<bool, NoMemory> {
        Ok(true)
    }
}

/// How storing the blobs ended.
#[derive(Debug, Drop)]
pub struct BatchUpdateBlobsResponse {
    pub responses: Items<BlobUpdated>,
}

impl Shape for BatchUpdateBlobsResponse {
    ghost use Rattle.rx_messages.specs.Batches.{batch_update_blobs_response_parts};

    ghost parts = { batch_update_blobs_response_parts };
}

impl Message for BatchUpdateBlobsResponse {
    ghost use Rattle.rx_codec.specs.Decoding.{any_form};
    ghost use Rattle.rx_messages.specs.Batches.{batch_update_blobs_response_fields, batch_update_blobs_response_from, batch_update_blobs_response_is_readable};

    ghost fields = { batch_update_blobs_response_fields };

    ghost from = { batch_update_blobs_response_from };

    ghost is_canonical = { any_form };

    ghost IsReadable = { batch_update_blobs_response_is_readable };

    #[tactic(auto, unfolding(rx_codec::specs::Parts::part_checked))]
    fn check_field(number: u32, value: Value<'_>, read: &Fields<'_>) -> Result<(), WireFault> {
        match number {
            batch_update_blobs_response::RESPONSES => check_message::<BlobUpdated>(
                number, value, read,
            ),
            _ => Ok(()),
        }
    }

    #[tactic(auto, unfolding(crate::specs::Batches::batch_update_blobs_response_from))]
    fn from_fields(
        alloc: Global,
        list: &FieldList<'_, BatchUpdateBlobsResponse>,
    ) -> Result<BatchUpdateBlobsResponse, MessageFault> {
        let responses = list.messages(alloc, batch_update_blobs_response::RESPONSES)?;
        Ok(BatchUpdateBlobsResponse { responses })
    }

    #[tactic(auto, unfolding(crate::specs::Batches::batch_update_blobs_response_fields))]
    fn write(
        &self,
        alloc: Global,
        out: &mut Writer<BatchUpdateBlobsResponse>,
    ) -> Result<(), NoMemory> {
        out.messages(
            alloc,
            batch_update_blobs_response::RESPONSES,
            &self.responses,
        )
    }

    fn has_one_form(&self, alloc: Global, bytes: &[u8]) -> Result<bool, NoMemory> {
        Ok(true)
    }
}
