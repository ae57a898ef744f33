//! The Request message, which is the payload of a request's frame, before any field's own rule.

ghost use Rattle.std.specs.Prelude.{◌≡◌, ◌++◌, IfOk, IsOk, Ok, OnOk, map};
ghost use Rattle.rx_codec.specs.Contents.{text_in, texts_in};
ghost use Rattle.rx_codec.specs.FieldBytes.{contents};
ghost use Rattle.rx_session.specs.Messages.{last_request_fields, pair_message, raw_request_fields, raw_request_from, raw_request_with};

use crate::fields::request;
use crate::pair_message::{PairMessage, pair_messages, pairs_in};
use rx_base::{Items, NoMemory, Text};
use rx_codec::{FieldList, Message, MessageFault, Shape, Writer, check_message, check_text};
use rx_wire::{Fields, Value, WireFault};
use rx_world::Pair;
use std::alloc::Global;

/// Each field of the message by its number: 0 or nothing where it is missing.
#[derive(Debug, Drop)]
pub struct RawRequest {
    /// 1
    pub version: u64,
    /// 2
    pub root: Text,
    /// 3
    pub words: Items<Text>,
    /// 4
    pub environment: Items<Pair>,
    /// 5
    pub working_directory: Text,
    /// 6
    pub strategy: u64,
    /// 7
    pub kind: u64,
    /// 8
    pub inputs: Items<Text>,
    /// 9
    pub toolchain_inputs: Items<Text>,
    /// 10
    pub outputs: Items<Text>,
    /// 11
    pub platform: Items<Pair>,
    /// 12
    pub accept_cached: u64,
    /// 13
    pub watch: u64,
    /// 14
    pub timeout_seconds: u64,
    /// 16
    pub in_place: u64,
}

impl Shape for RawRequest {
    ghost use Rattle.rx_session.specs.Messages.{raw_request_parts};

    ghost parts = { raw_request_parts };
}

impl Message for RawRequest {
    ghost use Rattle.rx_codec.specs.Decoding.{any_form};
    ghost use Rattle.rx_session.specs.Messages.{raw_request_fields, raw_request_from, raw_request_is_readable};

    ghost fields = { raw_request_fields };

    ghost from = { raw_request_from };

    ghost is_canonical = { any_form };

    ghost IsReadable = { raw_request_is_readable };

    #[tactic(auto, unfolding(rx_codec::specs::Parts::part_checked))]
    fn check_field(number: u32, value: Value<'_>, read: &Fields<'_>) -> Result<(), WireFault> {
        match number {
            request::ROOT
            | request::WORDS
            | request::WORKING_DIRECTORY
            | request::INPUTS
            | request::TOOLCHAIN_INPUTS
            | request::OUTPUTS => check_text(number, value, read),
            request::ENVIRONMENT | request::PLATFORM => {
                check_message::<PairMessage>(number, value, read)
            }
            _ => Ok(()),
        }
    }

    #[tactic(auto, unfolding(crate::specs::Messages::raw_request_from))]
    fn from_fields(
        alloc: Global,
        list: &FieldList<'_, RawRequest>,
    ) -> Result<RawRequest, MessageFault> {
        let environment = list.messages(alloc, request::ENVIRONMENT)?;
        let platform = list.messages(alloc, request::PLATFORM)?;
        Ok(request_in(alloc, list, environment, platform)?)
    }

    #[tactic(auto, unfolding(crate::specs::Messages::raw_request_fields))]
    fn write(&self, alloc: Global, out: &mut Writer<RawRequest>) -> Result<(), NoMemory> {
        let environment = pair_messages(alloc, self.environment.as_slice())?;
        let platform = pair_messages(alloc, self.platform.as_slice())?;
        write_with(alloc, self, &environment, &platform, out)
    }

    fn has_one_form(&self, alloc: Global, bytes: &[u8]) -> Result<bool, NoMemory> {
        Ok(true)
    }
}

// Texts and lists are read by themselves: where memory runs out a function lets go of all that it
// holds, and each of these ways out is proved.

/// The texts of the message.
#[derive(Drop)]
pub(crate) struct Texts {
    pub root: Text,
    pub working_directory: Text,
}

/// The lists of texts of the message.
#[derive(Drop)]
pub(crate) struct Lists {
    pub words: Items<Text>,
    pub inputs: Items<Text>,
    pub toolchain_inputs: Items<Text>,
    pub outputs: Items<Text>,
}

fn texts_of(alloc: Global, list: &FieldList<'_, RawRequest>) -> Result<Texts, NoMemory>
    ensures root { IfOk result (λ x. x.root ≡ text_in (contents 2 list.now)) }
    ensures directory { IfOk result (λ x. x.working_directory ≡ text_in (contents 5 list.now)) }
{
    Ok(Texts {
        root: list.text(alloc, request::ROOT)?,
        working_directory: list.text(alloc, request::WORKING_DIRECTORY)?,
    })
}

fn lists_of(alloc: Global, list: &FieldList<'_, RawRequest>) -> Result<Lists, NoMemory>
    ensures words { IfOk result (λ x. x.words ≡ texts_in (contents 3 list.now)) }
    ensures inputs { IfOk result (λ x. x.inputs ≡ texts_in (contents 8 list.now)) }
    ensures toolchain { IfOk result (λ x. x.toolchain_inputs ≡ texts_in (contents 9 list.now)) }
    ensures outputs { IfOk result (λ x. x.outputs ≡ texts_in (contents 10 list.now)) }
{
    Ok(Lists {
        words: list.texts(alloc, request::WORDS)?,
        inputs: list.texts(alloc, request::INPUTS)?,
        toolchain_inputs: list.texts(alloc, request::TOOLCHAIN_INPUTS)?,
        outputs: list.texts(alloc, request::OUTPUTS)?,
    })
}

/// The message of fields whose pairs were read.
fn request_in(
    alloc: Global,
    list: &FieldList<'_, RawRequest>,
    environment: Items<PairMessage>,
    platform: Items<PairMessage>,
) -> Result<RawRequest, NoMemory>
    ensures { IfOk result (λ x. x ≡ raw_request_with list.now environment platform) }
{
    let environment = pairs_in(alloc, environment)?;
    let platform = pairs_in(alloc, platform)?;
    let texts = texts_of(alloc, list)?;
    let lists = lists_of(alloc, list)?;
    Ok(RawRequest {
        version: list.number(request::VERSION),
        root: texts.root,
        words: lists.words,
        environment,
        working_directory: texts.working_directory,
        strategy: list.number(request::STRATEGY),
        kind: list.number(request::KIND),
        inputs: lists.inputs,
        toolchain_inputs: lists.toolchain_inputs,
        outputs: lists.outputs,
        platform,
        accept_cached: list.number(request::ACCEPT_CACHED),
        watch: list.number(request::WATCH),
        timeout_seconds: list.number(request::TIMEOUT_SECONDS),
        in_place: list.number(request::IN_PLACE),
    })
}

/// Writes the fields of a message, whose pairs are messages of their own.
#[tactic(auto, unfolding(crate::specs::Messages::raw_request_fields))]
fn write_with(
    alloc: Global,
    message: &RawRequest,
    environment: &Items<PairMessage>,
    platform: &Items<PairMessage>,
    out: &mut Writer<RawRequest>,
) -> Result<(), NoMemory>
    requires environment { environment.now ≡ map pair_message message.now.environment }
    requires platform { platform.now ≡ map pair_message message.now.platform }
    ensures written { OnOk result (out.new ≡ out.old ++ raw_request_fields message.now) }
    ensures again { IsOk result →
        raw_request_from (raw_request_fields message.now) ≡ Ok message.now }
{
    out.number(request::VERSION, message.version)?;
    out.text(request::ROOT, message.root.as_str())?;
    out.texts(request::WORDS, &message.words)?;
    out.messages(alloc, request::ENVIRONMENT, environment)?;
    out.text(
        request::WORKING_DIRECTORY,
        message.working_directory.as_str(),
    )?;
    out.number(request::STRATEGY, message.strategy)?;
    out.number(request::KIND, message.kind)?;
    out.texts(request::INPUTS, &message.inputs)?;
    out.texts(request::TOOLCHAIN_INPUTS, &message.toolchain_inputs)?;
    out.texts(request::OUTPUTS, &message.outputs)?;
    out.messages(alloc, request::PLATFORM, platform)?;
    write_last(message, out)
}

/// Writes the fields from 12 on.
fn write_last(message: &RawRequest, out: &mut Writer<RawRequest>) -> Result<(), NoMemory>
    ensures { OnOk result (out.new ≡ out.old ++ last_request_fields message.now) }
{
    out.number(request::ACCEPT_CACHED, message.accept_cached)?;
    out.number(request::WATCH, message.watch)?;
    out.number(request::TIMEOUT_SECONDS, message.timeout_seconds)?;
    out.number(request::IN_PLACE, message.in_place)
}
