//! Which blobs the store lacks (`remote_execution.proto`, FindMissingBlobs).

use crate::numbers::{find_missing_blobs_request, find_missing_blobs_response};
use rx_base::{Digest, Items, NoMemory, Text};
use rx_codec::{FieldList, Message, MessageFault, Shape, Writer, check_message, check_text};
use rx_wire::{Fields, Value, WireFault};
use std::alloc::Global;

/// The blobs that are asked for.
#[derive(Debug, Drop)]
pub struct FindMissingBlobsRequest {
    pub instance_name: Text,
    pub blob_digests: Items<Digest>,
}

impl Shape for FindMissingBlobsRequest {
    ghost use Rattle.rx_messages.specs.Blobs.{find_missing_blobs_request_parts};

    ghost parts = { find_missing_blobs_request_parts };
}

impl Message for FindMissingBlobsRequest {
    ghost use Rattle.rx_codec.specs.Decoding.{any_form};
    ghost use Rattle.rx_messages.specs.Blobs.{find_missing_blobs_request_fields, find_missing_blobs_request_from, find_missing_blobs_request_is_readable};

    ghost fields = { find_missing_blobs_request_fields };

    ghost from = { find_missing_blobs_request_from };

    ghost is_canonical = { any_form };

    ghost IsReadable = { find_missing_blobs_request_is_readable };

    #[tactic(auto, unfolding(rx_codec::specs::Parts::part_checked))]
    fn check_field(number: u32, value: Value<'_>, read: &Fields<'_>) -> Result<(), WireFault> {
        match number {
            find_missing_blobs_request::INSTANCE_NAME => check_text(number, value, read),
            find_missing_blobs_request::BLOB_DIGESTS => check_message::<Digest>(
                number, value, read,
            ),
            _ => Ok(()),
        }
    }

    #[tactic(auto, unfolding(crate::specs::Blobs::find_missing_blobs_request_from))]
    fn from_fields(
        alloc: Global,
        list: &FieldList<'_, FindMissingBlobsRequest>,
    ) -> Result<FindMissingBlobsRequest, MessageFault> {
        let instance_name = list.text(alloc, find_missing_blobs_request::INSTANCE_NAME)?;
        let blob_digests = list.messages(alloc, find_missing_blobs_request::BLOB_DIGESTS)?;
        Ok(FindMissingBlobsRequest {
            instance_name,
            blob_digests,
        })
    }

    #[tactic(auto, unfolding(crate::specs::Blobs::find_missing_blobs_request_fields))]
    fn write(
        &self,
        alloc: Global,
        out: &mut Writer<FindMissingBlobsRequest>,
    ) -> Result<(), NoMemory> {
        out.text(
            find_missing_blobs_request::INSTANCE_NAME,
            self.instance_name.as_str(),
        )?;
        out.messages(
            alloc,
            find_missing_blobs_request::BLOB_DIGESTS,
            &self.blob_digests,
        )
    }

    fn has_one_form(&self, alloc: Global, bytes: &[u8]) -> Result<bool, NoMemory> {
        Ok(true)
    }
}

/// The blobs that are lacking.
#[derive(Debug, Drop)]
pub struct FindMissingBlobsResponse {
    pub missing_blob_digests: Items<Digest>,
}

impl Shape for FindMissingBlobsResponse {
    ghost use Rattle.rx_messages.specs.Blobs.{find_missing_blobs_response_parts};

    ghost parts = { find_missing_blobs_response_parts };
}

impl Message for FindMissingBlobsResponse {
    ghost use Rattle.rx_codec.specs.Decoding.{any_form};
    ghost use Rattle.rx_messages.specs.Blobs.{find_missing_blobs_response_fields, find_missing_blobs_response_from, find_missing_blobs_response_is_readable};

    ghost fields = { find_missing_blobs_response_fields };

    ghost from = { find_missing_blobs_response_from };

    ghost is_canonical = { any_form };

    ghost IsReadable = { find_missing_blobs_response_is_readable };

    #[tactic(auto, unfolding(rx_codec::specs::Parts::part_checked))]
    fn check_field(number: u32, value: Value<'_>, read: &Fields<'_>) -> Result<(), WireFault> {
        match number {
            find_missing_blobs_response::MISSING_BLOB_DIGESTS => check_message::<Digest>(
                number, value, read,
            ),
            _ => Ok(()),
        }
    }

    #[tactic(auto, unfolding(crate::specs::Blobs::find_missing_blobs_response_from))]
    fn from_fields(
        alloc: Global,
        list: &FieldList<'_, FindMissingBlobsResponse>,
    ) -> Result<FindMissingBlobsResponse, MessageFault> {
        let missing_blob_digests = list.messages(
            alloc,
            find_missing_blobs_response::MISSING_BLOB_DIGESTS,
        )?;
        Ok(FindMissingBlobsResponse {
            missing_blob_digests,
        })
    }

    #[tactic(auto, unfolding(crate::specs::Blobs::find_missing_blobs_response_fields))]
    fn write(
        &self,
        alloc: Global,
        out: &mut Writer<FindMissingBlobsResponse>,
    ) -> Result<(), NoMemory> {
        out.messages(
            alloc,
            find_missing_blobs_response::MISSING_BLOB_DIGESTS,
            &self.missing_blob_digests,
        )
    }

    fn has_one_form(&self, alloc: Global, bytes: &[u8]) -> Result<bool, NoMemory> {
        Ok(true)
    }
}
