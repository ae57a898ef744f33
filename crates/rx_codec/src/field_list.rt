//! The fields of a message that was checked, and what they say, kind by kind.

ghost use Rattle.std.specs.Prelude.{◌≡◌, IfOk};
ghost use Rattle.std.specs.List.{AllByRecursion, concat};
ghost use Rattle.rx_base.specs.Results.{Gives};
ghost use Rattle.rx_base.specs.Texts.{texts as slices};
ghost use Rattle.rx_codec.specs.Contents.{each_in, each_of, int32_in, int64_in, joined_in, number_in, one_in, text_in, texts_in, truth_in};
ghost use Rattle.rx_codec.specs.FieldBytes.{contents, fields_in};
ghost use Rattle.rx_codec.specs.Seen.{seen};
ghost use Rattle.rx_codec.specs.Parts.{IsMessage, message, text};
ghost use Rattle.rx_codec.specs.declared.faults.MessageFault.TheVariants.{NoMemory};

use crate::chunks::{chunks_of, join, last_bytes, last_number, read_fields, texts_of};
use crate::faults::MessageFault;
use crate::message::{Message, Shape};
use rx_base::{Bytes, Items, NoMemory, Text};
use rx_wire::{Value, int32_of, text_of};
use std::alloc::Global;
use std::marker::{Model, PhantomData};

/// The fields of a message of the kind `M`, in the order in which they stand.
#[derive(Drop)]
pub struct FieldList<'a, M: Shape> {
    fields: Vec<(u32, Value<'a>)>,
    of: PhantomData<M>,
}

impl<'a, M: Shape> Model for FieldList<'a, M> {
    ghost use Rattle.std.specs.Prelude.{List, ℕ};
    ghost use Rattle.rx_wire.specs.Values.{Field};
    ghost use Rattle.rx_codec.specs.Parts.{HasParts};
    ghost use Rattle.rx_codec.specs.Seen.{seen};

    ghost Value = { List Field };

    ghost view = { λ l. seen l.fields.items };

    ghost invariant = { λ l. HasParts M.parts (seen l.fields.items) };
}

impl<'a, M: Shape> FieldList<'a, M> {
    /// The fields of these bytes.
    pub(crate) fn read(alloc: Global, bytes: &'a [u8]) -> Result<FieldList<'a, M>, NoMemory>
        requires { IsMessage M.parts bytes.now }
        ensures { IfOk result (λ list. list ≡ fields_in bytes.now) }
    {
        let fields = read_fields(alloc, bytes)?;
        Ok(FieldList {
            fields,
            of: PhantomData,
        })
    }

    /// A text: the last one, or the empty one.
    pub fn text(&self, alloc: Global, number: u32) -> Result<Text, NoMemory>
        requires { M.parts number ≡ text }
        ensures { IfOk result (λ text. text ≡ text_in (contents number self.now)) }
    {
        let bytes = last_bytes(&self.fields, number);
        Text::copy_of(alloc, text_of(bytes, 0).unwrap())
    }

    /// Bytes: the last ones, or none.
    pub fn bytes(&self, alloc: Global, number: u32) -> Result<Bytes, NoMemory>
        ensures { IfOk result (λ bytes. bytes ≡ text_in (contents number self.now)) }
    {
        Bytes::copy_of(alloc, last_bytes(&self.fields, number))
    }

    /// Bytes: all pieces, joined.
    #[tactic(auto, unfolding(crate::specs::Contents::joined_in))]
    pub fn joined(&self, alloc: Global, number: u32) -> Result<Bytes, NoMemory>
        ensures { IfOk result (λ bytes. bytes ≡ joined_in (contents number self.now)) }
    {
        let chunks = chunks_of(alloc, &self.fields, number)?;
        Ok(Bytes::from_vec(join(alloc, &chunks)?))
    }

    /// A number: the last one, or 0.
    pub fn number(&self, number: u32) -> u64
        ensures { result ≡ number_in (contents number self.now) }
    {
        last_number(&self.fields, number)
    }

    /// A truth value: whether the number isn't 0.
    #[tactic(auto, unfolding(crate::specs::Contents::truth_in))]
    pub fn truth(&self, number: u32) -> bool
        ensures { result ≡ truth_in (contents number self.now) }
    {
        self.number(number) != 0
    }

    /// An int32: the low 32 bits of the number.
    #[tactic(auto, unfolding(crate::specs::Contents::int32_in))]
    pub fn int32(&self, number: u32) -> i32
        ensures { result ≡ int32_in (contents number self.now) }
    {
        int32_of(self.number(number))
    }

    /// An int64: the number in two's complement.
    #[tactic(auto, unfolding(crate::specs::Contents::int64_in))]
    pub fn int64(&self, number: u32) -> i64
        ensures { result ≡ int64_in (contents number self.now) }
    {
        self.number(number).cast_signed()
    }

    /// Texts, in order.
    #[tactic(auto, unfolding(crate::specs::Contents::texts_in))]
    pub fn texts(&self, alloc: Global, number: u32) -> Result<Items<Text>, NoMemory>
        requires { M.parts number ≡ text }
        ensures { IfOk result (λ texts. texts ≡ texts_in (contents number self.now)) }
    {
        let chunks = chunks_of(alloc, &self.fields, number)?;
        Ok(Items::from_vec(texts_of(alloc, &chunks)?))
    }

    /// A message, of all its pieces, or none.
    #[tactic(auto, unfolding(crate::specs::Contents::one_in))]
    pub fn message<N: Message>(&self, alloc: Global, number: u32) -> Result<Option<N>, MessageFault>
        requires { M.parts number ≡ message N.parts }
        ensures { Gives NoMemory (λ x. x) result (one_in N.from (contents number self.now)) }
    {
        let chunks = chunks_of(alloc, &self.fields, number)?;
        if chunks.is_empty() {
            return Ok(None);
        }
        Ok(Some(merged_of(alloc, &chunks)?))
    }

    /// Messages, in order.
    #[tactic(auto, unfolding(crate::specs::Contents::each_in))]
    pub fn messages<N: Message>(&self, alloc: Global, number: u32) -> Result<Items<N>, MessageFault>
        requires { M.parts number ≡ message N.parts }
        ensures { Gives NoMemory (λ x. x) result (each_in N.from (contents number self.now)) }
    {
        let chunks = chunks_of(alloc, &self.fields, number)?;
        Ok(Items::from_vec(messages_of(alloc, &chunks)?))
    }
}

/// The message that some bytes are.
fn message_of<N: Message>(alloc: Global, bytes: &[u8]) -> Result<N, MessageFault>
    requires { IsMessage N.parts bytes.now }
    ensures { Gives NoMemory (λ x. x) result (N.from (fields_in bytes.now)) }
{
    let fields = FieldList::<N>::read(alloc, bytes)?;
    N::from_fields(alloc, &fields)
}

/// The message that these pieces are together.
fn merged_of<N: Message>(alloc: Global, pieces: &[&[u8]]) -> Result<N, MessageFault>
    requires { AllByRecursion (IsMessage N.parts) (slices pieces.now) }
    ensures { Gives NoMemory (λ x. x) result (N.from (fields_in (concat (slices pieces.now)))) }
{
    let bytes = join(alloc, pieces)?;
    message_of(alloc, &bytes)
}

/// The messages that these bytes are, each by itself.
fn messages_of<N: Message>(alloc: Global, pieces: &[&[u8]]) -> Result<Vec<N>, MessageFault>
    requires { AllByRecursion (IsMessage N.parts) (slices pieces.now) }
    ensures { Gives NoMemory (λ messages. messages.items) result
        (each_of N.from (slices pieces.now)) }
{
    let mut messages = Vec::new(alloc);
    for piece in pieces {
        messages.push(message_of(alloc, piece)?)?;
    }
    Ok(messages)
}
