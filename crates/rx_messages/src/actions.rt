//! What is run on which tree (`remote_execution.proto`, Action).

use crate::commands::Platform;
use crate::numbers::{action, duration};
use rx_base::{Bytes, Digest, NoMemory};
use rx_codec::{FieldList, Message, MessageFault, Shape, Writer, check_message};
use rx_wire::{Fields, Value, WireFault};
use std::alloc::Global;

/// A span of time (`google/protobuf/duration.proto`), of which only the whole seconds are read and written.
#[derive(Debug, Drop)]
pub struct Duration {
    pub seconds: i64,
}

impl Shape for Duration {
    ghost use Rattle.rx_messages.specs.Actions.{duration_parts};

    ghost parts = { duration_parts };
}

impl Message for Duration {
    ghost use Rattle.rx_codec.specs.Decoding.{any_form};
    ghost use Rattle.rx_messages.specs.Actions.{duration_fields, duration_from, duration_is_readable};

    ghost fields = { duration_fields };

    ghost from = { duration_from };

    ghost is_canonical = { any_form };

    ghost IsReadable = { duration_is_readable };

    #[tactic(auto, unfolding(rx_codec::specs::Parts::part_checked))]
    fn check_field(number: u32, value: Value<'_>, read: &Fields<'_>) -> Result<(), WireFault> {
        Ok(())
    }

    #[tactic(auto, unfolding(crate::specs::Actions::duration_from))]
    fn from_fields(
        alloc: Global,
        list: &FieldList<'_, Duration>,
    ) -> Result<Duration, MessageFault> {
        let seconds = list.int64(duration::SECONDS);
        Ok(Duration { seconds })
    }

    #[tactic(auto, unfolding(crate::specs::Actions::duration_fields))]
    fn write(&self, alloc: Global, out: &mut Writer<Duration>) -> Result<(), NoMemory> {
        let seconds = self.seconds;
        out.int64(duration::SECONDS, seconds)
    }

    fn has_one_form(&self, alloc: Global, bytes: &[u8]) -> Result<bool, NoMemory> {
        Ok(true)
    }
}

/// What is run on which tree.
#[derive(Debug, Drop)]
pub struct Action {
    pub command_digest: Option<Digest>,
    pub input_root_digest: Option<Digest>,
    pub timeout: Option<Duration>,
    pub do_not_cache: bool,
    pub salt: Bytes,
    pub platform: Option<Platform>,
}

impl Shape for Action {
    ghost use Rattle.rx_messages.specs.Actions.{action_parts};

    ghost parts = { action_parts };
}

impl Message for Action {
    ghost use Rattle.rx_codec.specs.Decoding.{any_form};
    ghost use Rattle.rx_messages.specs.Actions.{action_fields, action_from, action_is_readable};

    ghost fields = { action_fields };

    ghost from = { action_from };

    ghost is_canonical = { any_form };

    ghost IsReadable = { action_is_readable };

    #[tactic(auto, unfolding(rx_codec::specs::Parts::part_checked))]
    fn check_field(number: u32, value: Value<'_>, read: &Fields<'_>) -> Result<(), WireFault> {
        match number {
            action::COMMAND_DIGEST | action::INPUT_ROOT_DIGEST => check_message::<Digest>(
                number, value, read,
            ),
            action::TIMEOUT => check_message::<Duration>(number, value, read),
            action::PLATFORM => check_message::<Platform>(number, value, read),
            _ => Ok(()),
        }
    }

    #[tactic(auto, unfolding(crate::specs::Actions::action_from))]
    fn from_fields(alloc: Global, list: &FieldList<'_, Action>) -> Result<Action, MessageFault> {
        let command_digest = list.message(alloc, action::COMMAND_DIGEST)?;
        let input_root_digest = list.message(alloc, action::INPUT_ROOT_DIGEST)?;
        let timeout = list.message(alloc, action::TIMEOUT)?;
        let do_not_cache = list.truth(action::DO_NOT_CACHE);
        let salt = list.bytes(alloc, action::SALT)?;
        let platform = list.message(alloc, action::PLATFORM)?;
        Ok(Action {
            command_digest,
            input_root_digest,
            timeout,
            do_not_cache,
            salt,
            platform,
        })
    }

    #[tactic(auto, unfolding(crate::specs::Actions::action_fields))]
    fn write(&self, alloc: Global, out: &mut Writer<Action>) -> Result<(), NoMemory> {
        out.message(alloc, action::COMMAND_DIGEST, &self.command_digest)?;
        out.message(alloc, action::INPUT_ROOT_DIGEST, &self.input_root_digest)?;
        out.message(alloc, action::TIMEOUT, &self.timeout)?;
        out.truth(action::DO_NOT_CACHE, self.do_not_cache)?;
        out.bytes(action::SALT, self.salt.as_slice())?;
        out.message(alloc, action::PLATFORM, &self.platform)
    }

    fn has_one_form(&self, alloc: Global, bytes: &[u8]) -> Result<bool, NoMemory> {
        Ok(true)
    }
}
