ghost use Rattle.std.specs.Prelude.{◌≡◌, ◌+◌, ◌<◌, ◌≤◌, ◌++◌, length, take, OnOk, OnErr};
ghost use Rattle.proto_wire.specs.Varint.{varint};
ghost use Rattle.proto_wire.specs.Records.{number_record, span_head, span_record};

use cn_base::{Bytes, OutOfMemory};

/// The longest varint, in bytes ("Base 128 Varints").
const VARINT_BYTES: usize = 10;

/// Room for the tag and the varint after it, in bytes.
const HEAD_BYTES: usize = 2 * VARINT_BYTES;

/// Writes the shortest varint of a value into `head` from a place on, and gives the place after it.
fn spell_varint(head: &mut [u8], at: usize, value: u64) -> usize
    requires { at + 10 ≤ length head.old }
    ensures spelled { take result head.new ≡ take at head.old ++ varint value }
    ensures within { (at < result) × (result ≤ at + 10) }
{
    let mut end = at;
    let mut rest = value;
    while rest >= 128 {
        head[end] = (rest % 128) as u8 + 128;
        end += 1;
        rest /= 128;
    }
    head[end] = rest as u8;
    end + 1
}

/// Appends the shortest varint of a value ("Base 128 Varints"). Where memory runs out, nothing is changed.
pub fn put_varint(out: &mut Bytes, value: u64) -> Result<(), OutOfMemory>
    ensures ok { OnOk result (out.new ≡ out.old ++ varint value) }
    ensures err { OnErr result (out.new ≡ out.old) }
{
    let mut head = [0; VARINT_BYTES];
    let end = spell_varint(&mut head, 0, value);
    out.append(&head[..end])
}

/// Appends the shortest record of wire type 0. Where memory runs out, nothing is changed.
pub fn put_number(out: &mut Bytes, number: u32, value: u64) -> Result<(), OutOfMemory>
    requires low { 1 ≤ number }
    requires high { number ≤ 536870911 }
    ensures ok { OnOk result (out.new ≡ out.old ++ number_record number value) }
    ensures err { OnErr result (out.new ≡ out.old) }
{
    let mut head = [0; HEAD_BYTES];
    let tag_end = spell_varint(&mut head, 0, u64::from(number) * 8);
    let end = spell_varint(&mut head, tag_end, value);
    out.append(&head[..end])
}

/// How many bytes the shortest varint of a value has, from 1 to 10 ("Base 128 Varints"). It takes no memory.
pub fn varint_length(value: u64) -> usize
    ensures exact { result ≡ length (varint value) }
    ensures few { result ≤ 10 }
{
    let mut head = [0; VARINT_BYTES];
    spell_varint(&mut head, 0, value)
}

/// Appends what stands before a payload of this length in the shortest record of wire type 2, so that the payload may be appended piece by
/// piece. Where memory runs out, nothing is changed.
pub fn put_span_head(out: &mut Bytes, number: u32, length: u64) -> Result<(), OutOfMemory>
    requires low { 1 ≤ number }
    requires high { number ≤ 536870911 }
    ensures ok { OnOk result (out.new ≡ out.old ++ span_head number length) }
    ensures err { OnErr result (out.new ≡ out.old) }
{
    let mut head = [0; HEAD_BYTES];
    let tag_end = spell_varint(&mut head, 0, u64::from(number) * 8 + 2);
    let end = spell_varint(&mut head, tag_end, length);
    out.append(&head[..end])
}

/// Appends the shortest record of wire type 2, with a copy of the payload. Where memory runs out, nothing is changed.
pub fn put_span(out: &mut Bytes, number: u32, payload: &[u8]) -> Result<(), OutOfMemory>
    requires low { 1 ≤ number }
    requires high { number ≤ 536870911 }
    ensures ok { OnOk result (out.new ≡ out.old ++ span_record number payload.now) }
    ensures err { OnErr result (out.new ≡ out.old) }
{
    let mut head = [0; HEAD_BYTES];
    let tag_end = spell_varint(&mut head, 0, u64::from(number) * 8 + 2);
    let end = spell_varint(&mut head, tag_end, payload.len() as u64);
    out.append_both(&head[..end], payload)
}
