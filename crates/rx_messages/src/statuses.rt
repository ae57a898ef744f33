//! How a call on one blob ended (`google/rpc/status.proto`, `google/protobuf/any.proto`).

use crate::numbers::{any, status};
use rx_base::{Bytes, Items, NoMemory, Text};
use rx_codec::{FieldList, Message, MessageFault, Shape, Writer, check_message, check_text};
use rx_wire::{Fields, Value, WireFault};
use std::alloc::Global;

/// A message of any kind, by the name of its type and its bytes.
#[derive(Debug, Drop)]
pub struct Any {
    pub type_url: Text,
    pub value: Bytes,
}

impl Shape for Any {
    ghost use Rattle.rx_messages.specs.Statuses.{any_parts};

    ghost parts = { any_parts };
}

impl Message for Any {
    ghost use Rattle.rx_codec.specs.Decoding.{any_form};
    ghost use Rattle.rx_messages.specs.Statuses.{any_fields, any_from, any_is_readable};

    ghost fields = { any_fields };

    ghost from = { any_from };

    ghost is_canonical = { any_form };

    ghost IsReadable = { any_is_readable };

    #[tactic(auto, unfolding(rx_codec::specs::Parts::part_checked))]
    fn check_field(number: u32, value: Value<'_>, read: &Fields<'_>) -> Result<(), WireFault> {
        match number {
            any::TYPE_URL => check_text(number, value, read),
            _ => Ok(()),
        }
    }

    #[tactic(auto, unfolding(crate::specs::Statuses::any_from))]
    fn from_fields(alloc: Global, list: &FieldList<'_, Any>) -> Result<Any, MessageFault> {
        let type_url = list.text(alloc, any::TYPE_URL)?;
        let value = list.bytes(alloc, any::VALUE)?;
        Ok(Any { type_url, value })
    }

    #[tactic(auto, unfolding(crate::specs::Statuses::any_fields))]
    fn write(&self, alloc: Global, out: &mut Writer<Any>) -> Result<(), NoMemory> {
        out.text(any::TYPE_URL, self.type_url.as_str())?;
        out.bytes(any::VALUE, self.value.as_slice())
    }

    fn has_one_form(&self, alloc: Global, bytes: &[u8]) -> Result<bool, NoMemory> {
        Ok(true)
    }
}

/// A gRPC status.
#[derive(Debug, Drop)]
pub struct Status {
    pub code: i32,
    pub message: Text,
    pub details: Items<Any>,
}

impl Shape for Status {
    ghost use Rattle.rx_messages.specs.Statuses.{status_parts};

    ghost parts = { status_parts };
}

impl Message for Status {
    ghost use Rattle.rx_codec.specs.Decoding.{any_form};
    ghost use Rattle.rx_messages.specs.Statuses.{status_fields, status_from, status_is_readable};

    ghost fields = { status_fields };

    ghost from = { status_from };

    ghost is_canonical = { any_form };

    ghost IsReadable = { status_is_readable };

    #[tactic(auto, unfolding(rx_codec::specs::Parts::part_checked))]
    fn check_field(number: u32, value: Value<'_>, read: &Fields<'_>) -> Result<(), WireFault> {
        match number {
            status::MESSAGE => check_text(number, value, read),
            status::DETAILS => check_message::<Any>(number, value, read),
            _ => Ok(()),
        }
    }

    #[tactic(auto, unfolding(crate::specs::Statuses::status_from))]
    fn from_fields(alloc: Global, list: &FieldList<'_, Status>) -> Result<Status, MessageFault> {
        let code = list.int32(status::CODE);
        let message = list.text(alloc, status::MESSAGE)?;
        let details = list.messages(alloc, status::DETAILS)?;
        Ok(Status {
            code,
            message,
            details,
        })
    }

    #[tactic(auto, unfolding(crate::specs::Statuses::status_fields))]
    fn write(&self, alloc: Global, out: &mut Writer<Status>) -> Result<(), NoMemory> {
        let code = self.code;
        out.int32(status::CODE, code)?;
        out.text(status::MESSAGE, self.message.as_str())?;
        out.messages(alloc, status::DETAILS, &self.details)
    }

    fn has_one_form(&self, alloc: Global, bytes: &[u8]) -> Result<bool, NoMemory> {
        Ok(true)
    }
}
