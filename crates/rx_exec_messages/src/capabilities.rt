//! What a server can do (`remote_execution.proto`, GetCapabilitiesRequest, ServerCapabilities).

use crate::numbers::{cache_capabilities, get_capabilities_request, server_capabilities};
use crate::versions::Version;
use rx_base::{Bytes, NoMemory, Text};
use rx_codec::{FieldList, Message, MessageFault, Shape, Writer, check_message, check_text};
use rx_wire::{Fields, Value, WireFault};
use std::alloc::Global;

/// What the store of the server can do, as far as it is asked here.
#[derive(Debug, Drop)]
pub struct CacheCapabilities {
    /// The most bytes of one batch call, and 0 for no limit of the store's own. What is negative
    /// has no meaning, and is kept as it was sent.
    pub max_batch_total_size_bytes: i64,
}

impl Shape for CacheCapabilities {
    ghost use Rattle.rx_exec_messages.specs.Capabilities.{cache_capabilities_parts};

    ghost parts = { cache_capabilities_parts };
}

impl Message for CacheCapabilities {
    ghost use Rattle.rx_codec.specs.Decoding.{any_form};
    ghost use Rattle.rx_exec_messages.specs.Capabilities.{cache_capabilities_fields};
    ghost use Rattle.rx_exec_messages.specs.Capabilities.{cache_capabilities_from};
    ghost use Rattle.rx_exec_messages.specs.Capabilities.{cache_capabilities_is_readable};

    ghost fields = { cache_capabilities_fields };

    ghost from = { cache_capabilities_from };

    ghost is_canonical = { any_form };

    ghost IsReadable = { cache_capabilities_is_readable };

    #[tactic(auto, unfolding(rx_codec::specs::Parts::part_checked))]
    fn check_field(number: u32, value: Value<'_>, read: &Fields<'_>) -> Result<(), WireFault> {
        Ok(())
    }

    #[tactic(auto, unfolding(crate::specs::Capabilities::cache_capabilities_from))]
    fn from_fields(
        alloc: Global,
        list: &FieldList<'_, CacheCapabilities>,
    ) -> Result<CacheCapabilities, MessageFault> {
        let max_batch_total_size_bytes = list.int64(cache_capabilities::MAX_BATCH_TOTAL_SIZE_BYTES);
        Ok(CacheCapabilities {
            max_batch_total_size_bytes,
        })
    }

    #[tactic(auto, unfolding(crate::specs::Capabilities::cache_capabilities_fields))]
    fn write(&self, alloc: Global, out: &mut Writer<CacheCapabilities>) -> Result<(), NoMemory> {
        let max_batch_total_size_bytes = self.max_batch_total_size_bytes;
        out.int64(
            cache_capabilities::MAX_BATCH_TOTAL_SIZE_BYTES,
            max_batch_total_size_bytes,
        )
    }

    fn has_one_form(&self, alloc: Global, bytes: &[u8]) -> Result<bool, NoMemory> {
        Ok(true)
    }
}

/// The call Capabilities/GetCapabilities.
#[derive(Debug, Drop)]
pub struct GetCapabilitiesRequest {
    /// The name of the instance of the server; empty where it has but one.
    pub instance_name: Text,
}

impl Shape for GetCapabilitiesRequest {
    ghost use Rattle.rx_exec_messages.specs.Capabilities.{get_capabilities_request_parts};

    ghost parts = { get_capabilities_request_parts };
}

impl Message for GetCapabilitiesRequest {
    ghost use Rattle.rx_codec.specs.Decoding.{any_form};
    ghost use Rattle.rx_exec_messages.specs.Capabilities.{get_capabilities_request_fields};
    ghost use Rattle.rx_exec_messages.specs.Capabilities.{get_capabilities_request_from};
    ghost use Rattle.rx_exec_messages.specs.Capabilities.{get_capabilities_request_is_readable};

    ghost fields = { get_capabilities_request_fields };

    ghost from = { get_capabilities_request_from };

    ghost is_canonical = { any_form };

    ghost IsReadable = { get_capabilities_request_is_readable };

    #[tactic(auto, unfolding(rx_codec::specs::Parts::part_checked))]
    fn check_field(number: u32, value: Value<'_>, read: &Fields<'_>) -> Result<(), WireFault> {
        match number {
            get_capabilities_request::INSTANCE_NAME => check_text(number, value, read),
            _ => Ok(()),
        }
    }

    #[tactic(auto, unfolding(crate::specs::Capabilities::get_capabilities_request_from))]
    fn from_fields(
        alloc: Global,
        list: &FieldList<'_, GetCapabilitiesRequest>,
    ) -> Result<GetCapabilitiesRequest, MessageFault> {
        let instance_name = list.text(alloc, get_capabilities_request::INSTANCE_NAME)?;
        Ok(GetCapabilitiesRequest { instance_name })
    }

    #[tactic(auto, unfolding(crate::specs::Capabilities::get_capabilities_request_fields))]
    fn write(
        &self,
        alloc: Global,
        out: &mut Writer<GetCapabilitiesRequest>,
    ) -> Result<(), NoMemory> {
        out.text(
            get_capabilities_request::INSTANCE_NAME,
            self.instance_name.as_str(),
        )
    }

    fn has_one_form(&self, alloc: Global, bytes: &[u8]) -> Result<bool, NoMemory> {
        Ok(true)
    }
}

/// The answer: what the server can do, and which versions of the API it speaks.
#[derive(Debug, Drop)]
pub struct ServerCapabilities {
    /// None where the server has no store.
    pub cache_capabilities: Option<CacheCapabilities>,
    /// The bytes of an ExecutionCapabilities, all pieces joined; their inside isn't judged.
    /// Empty where the server tells of none, or of an empty one.
    pub execution_capabilities: Bytes,
    /// The lowest version that the server speaks.
    pub low_api_version: Option<Version>,
    /// The highest version that the server speaks.
    pub high_api_version: Option<Version>,
}

impl Shape for ServerCapabilities {
    ghost use Rattle.rx_exec_messages.specs.Capabilities.{server_capabilities_parts};

    ghost parts = { server_capabilities_parts };
}

impl Message for ServerCapabilities {
    ghost use Rattle.rx_codec.specs.Decoding.{any_form};
    ghost use Rattle.rx_exec_messages.specs.Capabilities.{server_capabilities_fields};
    ghost use Rattle.rx_exec_messages.specs.Capabilities.{server_capabilities_from};
    ghost use Rattle.rx_exec_messages.specs.Capabilities.{server_capabilities_is_readable};

    ghost fields = { server_capabilities_fields };

    ghost from = { server_capabilities_from };

    ghost is_canonical = { any_form };

    ghost IsReadable = { server_capabilities_is_readable };

    #[tactic(auto, unfolding(rx_codec::specs::Parts::part_checked))]
    fn check_field(number: u32, value: Value<'_>, read: &Fields<'_>) -> Result<(), WireFault> {
        match number {
            server_capabilities::CACHE_CAPABILITIES => check_message::<CacheCapabilities>(
                number, value, read,
            ),
            server_capabilities::LOW_API_VERSION | server_capabilities::HIGH_API_VERSION =>
                check_message::<Version>(number, value, read),
            _ => Ok(()),
        }
    }

    #[tactic(auto, unfolding(crate::specs::Capabilities::server_capabilities_from))]
    fn from_fields(
        alloc: Global,
        list: &FieldList<'_, ServerCapabilities>,
    ) -> Result<ServerCapabilities, MessageFault> {
        let cache_capabilities = list.message(alloc, server_capabilities::CACHE_CAPABILITIES)?;
        let execution_capabilities = list.joined(
            alloc,
            server_capabilities::EXECUTION_CAPABILITIES,
        )?;
        let low_api_version = list.message(alloc, server_capabilities::LOW_API_VERSION)?;
        let high_api_version = list.message(alloc, server_capabilities::HIGH_API_VERSION)?;
        Ok(ServerCapabilities {
            cache_capabilities,
            execution_capabilities,
            low_api_version,
            high_api_version,
        })
    }

    #[tactic(auto, unfolding(crate::specs::Capabilities::server_capabilities_fields))]
    fn write(&self, alloc: Global, out: &mut Writer<ServerCapabilities>) -> Result<(), NoMemory> {
        out.message(
            alloc,
            server_capabilities::CACHE_CAPABILITIES,
            &self.cache_capabilities,
        )?;
        out.bytes(
            server_capabilities::EXECUTION_CAPABILITIES,
            self.execution_capabilities.as_slice(),
        )?;
        out.message(
            alloc,
            server_capabilities::LOW_API_VERSION,
            &self.low_api_version,
        )?;
        out.message(
            alloc,
            server_capabilities::HIGH_API_VERSION,
            &self.high_api_version,
        )
    }

    fn has_one_form(&self, alloc: Global, bytes: &[u8]) -> Result<bool, NoMemory> {
        Ok(true)
    }
}
