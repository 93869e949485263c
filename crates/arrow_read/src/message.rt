ghost use Rattle.std.specs.Prelude.{◌≡◌, ◌+◌, ◌≤◌, length, take, drop, Ok, Err, IfOk, OnOk};
ghost use Rattle.arrow_read.specs.Reading.{begins_as_message as says_begins, metadata_size as said_size, metadata_at as said_metadata, body_at as said_body, seen_bytes};

use crate::{ArrowFault, numbers};

/// Whether the first bytes, up to 4, are those of the continuation mark (Arrow Columnar Format, "Encapsulated message format").
fn begins_as_message(bytes: &[u8]) -> bool
    ensures { result ≡ says_begins bytes.now }
{
    bytes.iter().take(4).all(|byte| *byte == 0xFF)
}

/// The size of the metadata of the message at `at`, all of which the input has. The end mark has the size 0.
#[tactic(auto, unfolding(crate::specs::Reading::metadata_size))]
pub(crate) fn metadata_size(bytes: &[u8], at: usize) -> Result<usize, ArrowFault>
    requires { at ≤ length bytes.now }
    ensures size { result ≡ said_size bytes.now at }
    ensures within { IfOk result (λ size. at + 8 + size ≤ length bytes.now) }
{
    if !begins_as_message(&bytes[at..]) {
        return Err(ArrowFault::NotAMessage { at });
    }
    let Some(number) = numbers::i32_in(bytes, at + 4) else {
        return Err(ArrowFault::Truncated);
    };
    let Some(size) = numbers::not_negative(i64::from(number)) else {
        return Err(ArrowFault::NotAMessage { at });
    };
    if bytes.len() - at < 8 || bytes.len() - at - 8 < size {
        return Err(ArrowFault::Truncated);
    }
    Ok(size)
}

/// The metadata of the message at `at`, which has so many.
pub(crate) fn metadata_at(bytes: &[u8], at: usize, size: usize) -> &[u8]
    requires { at + 8 + size ≤ length bytes.now }
    ensures { result.now ≡ said_metadata bytes.now at size }
{
    &bytes[at + 8..][..size]
}

/// The body of `size` bytes from `at` on.
pub(crate) fn body_at(bytes: &[u8], at: usize, size: usize) -> Result<&[u8], ArrowFault>
    requires { at ≤ length bytes.now }
    ensures body { said_body bytes.now at size ≡ seen_bytes (λ slice. slice.now) result }
    ensures within { OnOk result (at + size ≤ length bytes.now) }
{
    if bytes.len() - at < size {
        return Err(ArrowFault::Truncated);
    }
    Ok(&bytes[at..][..size])
}
