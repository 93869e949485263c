ghost use Rattle.std.specs.Prelude.{◌≡◌, ◌≤◌, [], ◌++◌, length, IfOk, OnOk, OnErr};
ghost use Rattle.proto_wire.specs.Records.{span_head};
ghost use Rattle.proto_fields.specs.Spelling as spelling;
ghost use Rattle.proto_fields.specs.Spelling.{spell};

use crate::writing;
use cn_base::{Bytes, OutOfMemory, Text};
use proto_wire::put_span_head;
use std::alloc::Global;
use std::marker::Model;

/// A message that is written from its last field to its first, so that the length of a payload is known when its tag and length are written:
/// nothing is sized twice and no payload is copied for each level of nesting. Contracts see the bytes that stand so far, the end of the
/// message. Where memory runs out, a call changes nothing.
#[derive(Debug, Drop)]
pub struct MessageWriter {
    /// The bytes in the opposite order, so that what stands before is appended.
    bytes: Bytes,
}

impl Model for MessageWriter {
    ghost use Rattle.std.specs.Prelude.{ℕ, List, reverse};
    ghost use Rattle.std.specs.Coded.{coded_list, coded_ℕ};

    ghost Value = { List ℕ };

    ghost coded = { coded_list coded_ℕ };

    ghost view = { λ w. reverse w.bytes };
}

impl MessageWriter {
    /// Nothing is written yet. It takes no memory.
    pub fn new(alloc: Global) -> MessageWriter
        ensures { result ≡ [] }
    {
        MessageWriter {
            bytes: Bytes::new(alloc),
        }
    }

    /// Nothing is written yet, and there is room for a message of `room` bytes.
    pub fn with_room(alloc: Global, room: usize) -> Result<MessageWriter, OutOfMemory>
        ensures { IfOk result (λ w. w ≡ []) }
    {
        let bytes = Bytes::with_room(alloc, room)?;
        Ok(MessageWriter { bytes })
    }

    /// How many bytes stand so far.
    pub fn len(&self) -> usize
        ensures { result ≡ length self.now }
    {
        self.bytes.len()
    }

    /// The message. It takes no memory.
    pub fn finish(self) -> Bytes
        ensures { result ≡ self }
    {
        let MessageWriter { mut bytes } = self;
        bytes.reverse_from(0);
        bytes
    }

    /// Puts the tag and the length of a payload of this length before what stands.
    #[tactic(auto, using(crate::proofs::WriterLemmas::turned))]
    pub fn put_head(&mut self, number: u32, payload: usize) -> Result<(), OutOfMemory>
        requires low { 1 ≤ number }
        requires high { number ≤ 536870911 }
        ensures ok { OnOk result (self.new ≡ span_head number payload ++ self.old) }
        ensures err { OnErr result (self.new ≡ self.old) }
    {
        let end = self.bytes.len();
        put_span_head(&mut self.bytes, number, payload as u64)?;
        self.bytes.reverse_from(end);
        Ok(())
    }

    /// Puts an int32 or an enum before what stands, or nothing where it is 0. One below 0 is its two's complement of 64 bits.
    #[tactic(auto, using(crate::proofs::WriterLemmas::turned))]
    pub fn put_int32(&mut self, number: u32, value: i32) -> Result<(), OutOfMemory>
        requires low { 1 ≤ number }
        requires high { number ≤ 536870911 }
        ensures ok { OnOk result (self.new ≡ spell (spelling.int_fields number value) ++ self.old) }
        ensures err { OnErr result (self.new ≡ self.old) }
    {
        let end = self.bytes.len();
        writing::put_int32(&mut self.bytes, number, value)?;
        self.bytes.reverse_from(end);
        Ok(())
    }

    /// Puts an int64 before what stands, or nothing where it is 0.
    #[tactic(auto, using(crate::proofs::WriterLemmas::turned))]
    pub fn put_int64(&mut self, number: u32, value: i64) -> Result<(), OutOfMemory>
        requires low { 1 ≤ number }
        requires high { number ≤ 536870911 }
        ensures ok { OnOk result (self.new ≡ spell (spelling.int_fields number value) ++ self.old) }
        ensures err { OnErr result (self.new ≡ self.old) }
    {
        let end = self.bytes.len();
        writing::put_int64(&mut self.bytes, number, value)?;
        self.bytes.reverse_from(end);
        Ok(())
    }

    /// Puts a bool before what stands, or nothing where it is false.
    #[tactic(auto, using(crate::proofs::WriterLemmas::turned))]
    pub fn put_bool(&mut self, number: u32, value: bool) -> Result<(), OutOfMemory>
        requires low { 1 ≤ number }
        requires high { number ≤ 536870911 }
        ensures ok { OnOk result (self.new ≡ spell (spelling.bool_fields number value) ++ self.old) }
        ensures err { OnErr result (self.new ≡ self.old) }
    {
        let end = self.bytes.len();
        writing::put_bool(&mut self.bytes, number, value)?;
        self.bytes.reverse_from(end);
        Ok(())
    }

    /// Puts an int32 or an enum before what stands, where it is present.
    #[tactic(auto, using(crate::proofs::WriterLemmas::turned))]
    pub fn put_optional_int32(&mut self, number: u32, value: Option<i32>) -> Result<(), OutOfMemory>
        requires low { 1 ≤ number }
        requires high { number ≤ 536870911 }
        ensures ok { OnOk result (self.new ≡ spell (spelling.optional_int_fields number value) ++ self.old) }
        ensures err { OnErr result (self.new ≡ self.old) }
    {
        let end = self.bytes.len();
        writing::put_optional_int32(&mut self.bytes, number, value)?;
        self.bytes.reverse_from(end);
        Ok(())
    }

    /// Puts an int64 before what stands, where it is present.
    #[tactic(auto, using(crate::proofs::WriterLemmas::turned))]
    pub fn put_optional_int64(&mut self, number: u32, value: Option<i64>) -> Result<(), OutOfMemory>
        requires low { 1 ≤ number }
        requires high { number ≤ 536870911 }
        ensures ok { OnOk result (self.new ≡ spell (spelling.optional_int_fields number value) ++ self.old) }
        ensures err { OnErr result (self.new ≡ self.old) }
    {
        let end = self.bytes.len();
        writing::put_optional_int64(&mut self.bytes, number, value)?;
        self.bytes.reverse_from(end);
        Ok(())
    }

    /// Puts a bool before what stands, where it is present.
    #[tactic(auto, using(crate::proofs::WriterLemmas::turned))]
    pub fn put_optional_bool(&mut self, number: u32, value: Option<bool>) -> Result<(), OutOfMemory>
        requires low { 1 ≤ number }
        requires high { number ≤ 536870911 }
        ensures ok { OnOk result (self.new ≡ spell (spelling.optional_bool_fields number value) ++ self.old) }
        ensures err { OnErr result (self.new ≡ self.old) }
    {
        let end = self.bytes.len();
        writing::put_optional_bool(&mut self.bytes, number, value)?;
        self.bytes.reverse_from(end);
        Ok(())
    }

    /// Puts a payload before what stands, empty or not: a text or plain bytes that are a set member of a oneof or an item of a repeated field.
    #[tactic(auto, using(crate::proofs::WriterLemmas::turned))]
    pub fn put_payload(&mut self, number: u32, payload: &[u8]) -> Result<(), OutOfMemory>
        requires low { 1 ≤ number }
        requires high { number ≤ 536870911 }
        ensures ok { OnOk result (self.new ≡ spell (spelling.payload_fields number payload.now) ++ self.old) }
        ensures err { OnErr result (self.new ≡ self.old) }
    {
        let end = self.bytes.len();
        writing::put_payload(&mut self.bytes, number, payload)?;
        self.bytes.reverse_from(end);
        Ok(())
    }

    /// Puts a text before what stands, or nothing where it is empty.
    #[tactic(auto, using(crate::proofs::WriterLemmas::turned))]
    pub fn put_text(&mut self, number: u32, text: &str) -> Result<(), OutOfMemory>
        requires low { 1 ≤ number }
        requires high { number ≤ 536870911 }
        ensures ok { OnOk result (self.new ≡ spell (spelling.text_fields number text.now) ++ self.old) }
        ensures err { OnErr result (self.new ≡ self.old) }
    {
        let end = self.bytes.len();
        writing::put_text(&mut self.bytes, number, text)?;
        self.bytes.reverse_from(end);
        Ok(())
    }

    /// Puts a text before what stands, where it is present, empty or not.
    #[tactic(auto, using(crate::proofs::WriterLemmas::turned))]
    pub fn put_optional_text(&mut self, number: u32, text: &Option<Text>) -> Result<(), OutOfMemory>
        requires low { 1 ≤ number }
        requires high { number ≤ 536870911 }
        ensures ok { OnOk result (self.new ≡ spell (spelling.optional_payload_fields number text.now) ++ self.old) }
        ensures err { OnErr result (self.new ≡ self.old) }
    {
        let end = self.bytes.len();
        writing::put_optional_text(&mut self.bytes, number, text)?;
        self.bytes.reverse_from(end);
        Ok(())
    }

    /// Puts plain bytes before what stands, where they are present, empty or not.
    #[tactic(auto, using(crate::proofs::WriterLemmas::turned))]
    pub fn put_optional_bytes(
        &mut self,
        number: u32,
        bytes: &Option<Bytes>,
    ) -> Result<(), OutOfMemory>
        requires low { 1 ≤ number }
        requires high { number ≤ 536870911 }
        ensures ok { OnOk result (self.new ≡ spell (spelling.optional_payload_fields number bytes.now) ++ self.old) }
        ensures err { OnErr result (self.new ≡ self.old) }
    {
        let end = self.bytes.len();
        writing::put_optional_bytes(&mut self.bytes, number, bytes)?;
        self.bytes.reverse_from(end);
        Ok(())
    }
}
