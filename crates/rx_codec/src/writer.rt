//! The fields of a message as they are written, kind by kind.

ghost use Rattle.std.specs.Prelude.{◌≡◌, [], ◌∷◌, ◌++◌, ◌<◌, ◌^◌, IsOk, IfSome, OnOk};
ghost use Rattle.std.specs.List.{AllByRecursion};
ghost use Rattle.rx_wire.specs.Values.{Field, varint, bytes};
ghost use Rattle.rx_codec.specs.Contents.{each_in, each_put, int32_in, int32_put, int64_in, int64_put, joined_in, number_in, number_put, one_in, one_put, text_in, text_put, texts_in, texts_put, truth_in, truth_put};
ghost use Rattle.rx_codec.specs.FieldBytes.{contents, fields_in, fields_bytes, numbered};
ghost use Rattle.rx_codec.specs.Parts.{IsMessage, IsPart, anything, text, message};

use crate::message::{Message, Shape};
use rx_base::{Items, NoMemory, Text};
use rx_wire::Out;
use std::alloc::Global;
use std::marker::{Model, PhantomData};

/// The fields of a message of the kind `M` so far.
#[derive(Drop)]
pub struct Writer<M: Shape> {
    out: Out,
    of: PhantomData<M>,
}

impl<M: Shape> Model for Writer<M> {
    ghost use Rattle.std.specs.Prelude.{List, ℕ, ◌≡◌};
    ghost use Rattle.rx_wire.specs.Values.{Field};
    ghost use Rattle.rx_codec.specs.FieldBytes.{fields_in};
    ghost use Rattle.rx_codec.specs.Written.{IsWritten};

    ghost Value = { List Field };

    ghost view = { λ w. fields_in w.out };

    ghost invariant = { λ w. IsWritten M.parts w.out };
}

impl<M: Shape> Writer<M> {
    /// No field yet.
    pub fn new(alloc: Global) -> Writer<M>
        ensures { result ≡ [] }
    {
        Writer {
            out: Out::new(alloc),
            of: PhantomData,
        }
    }

    /// The bytes of the fields.
    pub fn finish(self) -> Vec<u8>
        ensures bytes { result.items ≡ fields_bytes self }
        ensures again { fields_in result.items ≡ self }
        ensures message { IsMessage M.parts result.items }
    {
        let Writer { out, of: _ } = self;
        out.finish()
    }

    /// One more field of a length and bytes.
    fn push_bytes(&mut self, number: u32, value: &[u8]) -> Result<(), NoMemory>
        requires above { 0 < number }
        requires below { number < 2 ^ 29 }
        requires part { IsPart (M.parts number) (bytes value.now) }
        ensures { OnOk result (self.new ≡ self.old ++ numbered number (bytes value.now ∷ [])) }
    {
        self.out.bytes(number, value)
    }

    /// One more field that is a varint.
    fn push_varint(&mut self, number: u32, value: u64) -> Result<(), NoMemory>
        requires above { 0 < number }
        requires below { number < 2 ^ 29 }
        ensures { OnOk result (self.new ≡ self.old ++ numbered number (varint value ∷ [])) }
    {
        self.out.varint(number, value)
    }

    /// A text, left out where it is empty.
    #[tactic(auto, using(crate::proofs::ContentLaws::text_again, crate::proofs::ContentLaws::part_is_text), unfolding(crate::specs::Contents::text_put))]
    pub fn text(&mut self, number: u32, value: &str) -> Result<(), NoMemory>
        requires above { 0 < number }
        requires below { number < 2 ^ 29 }
        requires part { M.parts number ≡ text }
        ensures fields { OnOk result (self.new ≡ self.old ++ numbered number (text_put value.now)) }
        ensures again { text_in (text_put value.now) ≡ value.now }
    {
        if value.is_empty() {
            return Ok(());
        }
        self.push_bytes(number, value.as_bytes())
    }

    /// Bytes, left out where there are none.
    #[tactic(auto, using(crate::proofs::ContentLaws::text_again, crate::proofs::ContentLaws::joined_again, crate::proofs::ContentLaws::part_is_anything), unfolding(crate::specs::Contents::text_put))]
    pub fn bytes(&mut self, number: u32, value: &[u8]) -> Result<(), NoMemory>
        requires above { 0 < number }
        requires below { number < 2 ^ 29 }
        requires part { M.parts number ≡ anything }
        ensures fields { OnOk result (self.new ≡ self.old ++ numbered number (text_put value.now)) }
        ensures again { text_in (text_put value.now) ≡ value.now }
        ensures joined { joined_in (text_put value.now) ≡ value.now }
    {
        if value.is_empty() {
            return Ok(());
        }
        self.push_bytes(number, value)
    }

    /// A number, left out where it is 0.
    #[tactic(auto, using(crate::proofs::ContentLaws::number_again), unfolding(crate::specs::Contents::number_put))]
    pub fn number(&mut self, number: u32, value: u64) -> Result<(), NoMemory>
        requires above { 0 < number }
        requires below { number < 2 ^ 29 }
        ensures fields { OnOk result (self.new ≡ self.old ++ numbered number (number_put value)) }
        ensures again { number_in (number_put value) ≡ value }
    {
        if value == 0 {
            return Ok(());
        }
        self.push_varint(number, value)
    }

    /// A truth value, left out where it is false.
    #[tactic(auto, using(crate::proofs::ContentLaws::truth_again), unfolding(crate::specs::Contents::truth_put))]
    pub fn truth(&mut self, number: u32, value: bool) -> Result<(), NoMemory>
        requires above { 0 < number }
        requires below { number < 2 ^ 29 }
        ensures fields { OnOk result (self.new ≡ self.old ++ numbered number (truth_put value)) }
        ensures again { truth_in (truth_put value) ≡ value }
    {
        self.number(number, u64::from(value))
    }

    /// An int32, left out where it is 0. A negative one takes ten bytes.
    #[tactic(auto, using(crate::proofs::ContentLaws::int32_again), unfolding(crate::specs::Contents::int32_put))]
    pub fn int32(&mut self, number: u32, value: i32) -> Result<(), NoMemory>
        requires above { 0 < number }
        requires below { number < 2 ^ 29 }
        ensures fields { OnOk result (self.new ≡ self.old ++ numbered number (int32_put value)) }
        ensures again { int32_in (int32_put value) ≡ value }
    {
        self.number(number, i64::from(value).cast_unsigned())
    }

    /// An int64, left out where it is 0.
    #[tactic(auto, using(crate::proofs::ContentLaws::int64_again), unfolding(crate::specs::Contents::int64_put))]
    pub fn int64(&mut self, number: u32, value: i64) -> Result<(), NoMemory>
        requires above { 0 < number }
        requires below { number < 2 ^ 29 }
        ensures fields { OnOk result (self.new ≡ self.old ++ numbered number (int64_put value)) }
        ensures again { int64_in (int64_put value) ≡ value }
    {
        self.number(number, value.cast_unsigned())
    }

    /// Texts, each a field, also an empty one.
    #[tactic(auto, using(crate::proofs::ContentLaws::texts_again))]
    pub fn texts(&mut self, number: u32, values: &Items<Text>) -> Result<(), NoMemory>
        requires above { 0 < number }
        requires below { number < 2 ^ 29 }
        requires part { M.parts number ≡ text }
        ensures fields { OnOk result
            (self.new ≡ self.old ++ numbered number (texts_put values.now)) }
        ensures again { texts_in (texts_put values.now) ≡ values.now }
    {
        self.push_texts(number, values.as_slice())
    }

    /// Fields that are texts.
    #[tactic(auto, using(crate::proofs::ContentLaws::part_is_text), unfolding(crate::specs::Contents::texts_put))]
    fn push_texts(&mut self, number: u32, values: &[Text]) -> Result<(), NoMemory>
        requires above { 0 < number }
        requires below { number < 2 ^ 29 }
        requires part { M.parts number ≡ text }
        ensures { OnOk result (self.new ≡ self.old ++ numbered number (texts_put values.now)) }
    {
        for value in values {
            self.push_bytes(number, value.as_str().as_bytes())?;
        }
        Ok(())
    }

    /// A message, written where there is one, also where it is empty.
    #[tactic(auto, using(crate::proofs::ContentLaws::none_again, crate::proofs::ContentLaws::some_again), unfolding(crate::specs::Contents::one_put))]
    pub fn message<N: Message>(
        &mut self,
        alloc: Global,
        number: u32,
        value: &Option<N>,
    ) -> Result<(), NoMemory>
        requires above { 0 < number }
        requires below { number < 2 ^ 29 }
        requires part { M.parts number ≡ message N.parts }
        ensures fields { OnOk result
            (self.new ≡ self.old ++ numbered number (one_put N.fields value.now)) }
        ensures again { IsOk result → IfSome value.now N.IsReadable →
            one_in N.from (one_put N.fields value.now) ≡ Ok value.now }
    {
        match value {
            None => Ok(()),
            Some(value) => self.push_message(alloc, number, value),
        }
    }

    /// One more field that is a message.
    fn push_message<N: Message>(
        &mut self,
        alloc: Global,
        number: u32,
        value: &N,
    ) -> Result<(), NoMemory>
        requires above { 0 < number }
        requires below { number < 2 ^ 29 }
        requires part { M.parts number ≡ message N.parts }
        ensures fields { OnOk result (self.new
            ≡ self.old ++ numbered number (bytes (fields_bytes (N.fields value.now)) ∷ [])) }
        ensures again { IsOk result → N.IsReadable value.now →
            N.from (fields_in (fields_bytes (N.fields value.now))) ≡ Ok value.now }
    {
        let mut out = Writer::<N>::new(alloc);
        value.write(alloc, &mut out)?;
        self.push_bytes(number, &out.finish())
    }

    /// Messages, each a field.
    pub fn messages<N: Message>(
        &mut self,
        alloc: Global,
        number: u32,
        values: &Items<N>,
    ) -> Result<(), NoMemory>
        requires above { 0 < number }
        requires below { number < 2 ^ 29 }
        requires part { M.parts number ≡ message N.parts }
        ensures fields { OnOk result
            (self.new ≡ self.old ++ numbered number (each_put N.fields values.now)) }
        ensures again { IsOk result → AllByRecursion N.IsReadable values.now →
            each_in N.from (each_put N.fields values.now) ≡ Ok values.now }
    {
        self.push_messages(alloc, number, values.as_slice())
    }

    /// Fields that are messages.
    #[tactic(auto, unfolding(crate::specs::Contents::each_put))]
    fn push_messages<N: Message>(
        &mut self,
        alloc: Global,
        number: u32,
        values: &[N],
    ) -> Result<(), NoMemory>
        requires above { 0 < number }
        requires below { number < 2 ^ 29 }
        requires part { M.parts number ≡ message N.parts }
        ensures fields { OnOk result
            (self.new ≡ self.old ++ numbered number (each_put N.fields values.now)) }
        ensures again { IsOk result → AllByRecursion N.IsReadable values.now →
            each_in N.from (each_put N.fields values.now) ≡ Ok values.now }
    {
        for value in values {
            self.push_message(alloc, number, value)?;
        }
        Ok(())
    }
}
