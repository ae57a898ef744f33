//! When a server wants to be asked again (`google/rpc/error_details.proto`, RetryInfo; `google/protobuf/duration.proto`).

use rx_base::NoMemory;
use rx_codec::{FieldList, Message, MessageFault, Shape, Writer, check_message};
use rx_wire::{Fields, Value, WireFault};
use std::alloc::Global;

/// Field 1 of a Duration.
const SECONDS: u32 = 1;

/// Field 2 of a Duration.
const NANOS: u32 = 2;

/// Field 1 of a RetryInfo.
const RETRY_DELAY: u32 = 1;

/// A span of time (`google.protobuf.Duration`). Both numbers have one sign, where neither is 0.
#[derive(Debug, Drop)]
pub struct Delay {
    pub seconds: i64,
    pub nanos: i32,
}

impl Shape for Delay {
    ghost use Rattle.rx_grpc.specs.RetryInfo.{delay_parts};

    ghost parts = { delay_parts };
}

impl Message for Delay {
    ghost use Rattle.rx_codec.specs.Decoding.{any_form};
    ghost use Rattle.rx_grpc.specs.RetryInfo.{delay_fields, delay_from, delay_is_readable};

    ghost fields = { delay_fields };

    ghost from = { delay_from };

    ghost is_canonical = { any_form };

    ghost IsReadable = { delay_is_readable };

    #[tactic(auto, unfolding(rx_codec::specs::Parts::part_checked))]
    fn check_field(number: u32, value: Value<'_>, read: &Fields<'_>) -> Result<(), WireFault> {
        Ok(())
    }

    #[tactic(auto, unfolding(crate::specs::RetryInfo::delay_from))]
    fn from_fields(alloc: Global, list: &FieldList<'_, Delay>) -> Result<Delay, MessageFault> {
        let seconds = list.int64(SECONDS);
        let nanos = list.int32(NANOS);
        Ok(Delay { seconds, nanos })
    }

    #[tactic(auto, unfolding(crate::specs::RetryInfo::delay_fields))]
    fn write(&self, alloc: Global, out: &mut Writer<Delay>) -> Result<(), NoMemory> {
        let seconds = self.seconds;
        let nanos = self.nanos;
        out.int64(SECONDS, seconds)?;
        out.int32(NANOS, nanos)
    }

    fn has_one_form(&self, alloc: Global, bytes: &[u8]) -> Result<bool, NoMemory> {
        Ok(true)
    }
}

/// When a call may be made again (`google.rpc.RetryInfo`).
#[derive(Debug, Drop)]
pub struct RetryInfo {
    /// How long to wait at least.
    pub retry_delay: Option<Delay>,
}

impl Shape for RetryInfo {
    ghost use Rattle.rx_grpc.specs.RetryInfo.{retry_info_parts};

    ghost parts = { retry_info_parts };
}

impl Message for RetryInfo {
    ghost use Rattle.rx_codec.specs.Decoding.{any_form};
    ghost use Rattle.rx_grpc.specs.RetryInfo.{retry_info_fields, retry_info_from};
    ghost use Rattle.rx_grpc.specs.RetryInfo.{retry_info_is_readable};

    ghost fields = { retry_info_fields };

    ghost from = { retry_info_from };

    ghost is_canonical = { any_form };

    ghost IsReadable = { retry_info_is_readable };

    #[tactic(auto, unfolding(rx_codec::specs::Parts::part_checked))]
    fn check_field(number: u32, value: Value<'_>, read: &Fields<'_>) -> Result<(), WireFault> {
        match number {
            RETRY_DELAY => check_message::<Delay>(number, value, read),
            _ => Ok(()),
        }
    }

    #[tactic(auto, unfolding(crate::specs::RetryInfo::retry_info_from))]
    fn from_fields(
        alloc: Global,
        list: &FieldList<'_, RetryInfo>,
    ) -> Result<RetryInfo, MessageFault> {
        let retry_delay = list.message(alloc, RETRY_DELAY)?;
        Ok(RetryInfo { retry_delay })
    }

    #[tactic(auto, unfolding(crate::specs::RetryInfo::retry_info_fields))]
    fn write(&self, alloc: Global, out: &mut Writer<RetryInfo>) -> Result<(), NoMemory> {
        out.message(alloc, RETRY_DELAY, &self.retry_delay)
    }

    fn has_one_form(&self, alloc: Global, bytes: &[u8]) -> Result<bool, NoMemory> {
        Ok(true)
    }
}
