//! A queue of responses beside the weight of those after the oldest.

ghost use Rattle.std.specs.Prelude.{◌≡◌, ◌+◌, ◌-◌, ◌^◌, ◌<◌, ◌≤◌, ℕ, length, drop};
ghost use Rattle.response_buffer.specs.Window.{weight_of, weight_after_oldest};

use cn_base::Bytes;
use std::collections::VecDeque;

/// Drops the oldest response. Gives the weight of those after the new oldest.
fn drop_oldest(responses: &mut VecDeque<Bytes>, after_oldest: u64) -> u64
    requires { after_oldest ≡ weight_after_oldest responses.old.items }
    ensures responses { responses.new.items ≡ drop 1 responses.old.items }
    ensures weight { result ≡ weight_after_oldest responses.new.items }
{
    let _oldest = responses.pop_front();
    match responses.front() {
        Some(oldest) => after_oldest - oldest.as_slice().len() as u64,
        None => after_oldest,
    }
}

/// Drops the oldest responses while those after the oldest weigh at least the buffer. Gives their number, and the weight of those after
/// the new oldest.
pub(crate) fn drop_surplus(
    responses: &mut VecDeque<Bytes>,
    after_oldest: u64,
    buffer: u64,
) -> (u32, u64)
    requires weight { after_oldest ≡ weight_after_oldest responses.old.items }
    requires buffer { 0 < buffer }
    requires count { length responses.old.items < 2 ^ 32 }
    ensures responses { responses.new.items ≡ drop result.0 responses.old.items }
    ensures weight { result.1 ≡ weight_after_oldest responses.new.items }
    ensures below { result.1 < buffer }
    ensures within { result.0 ≤ length responses.old.items - 1 }
    ensures least { (n : ℕ) → n < result.0 → buffer ≤ weight_of (drop (n + 1) responses.old.items) }
{
    let mut after_oldest = after_oldest;
    let mut dropped = 0;
    while after_oldest >= buffer {
        after_oldest = drop_oldest(responses, after_oldest);
        dropped += 1;
    }
    (dropped, after_oldest)
}

/// Drops so many of the oldest responses. Gives the weight of those after the new oldest.
pub(crate) fn drop_count(responses: &mut VecDeque<Bytes>, after_oldest: u64, count: u32) -> u64
    requires { after_oldest ≡ weight_after_oldest responses.old.items }
    ensures responses { responses.new.items ≡ drop count responses.old.items }
    ensures weight { result ≡ weight_after_oldest responses.new.items }
{
    let mut after_oldest = after_oldest;
    for _ in 0..count {
        after_oldest = drop_oldest(responses, after_oldest);
    }
    after_oldest
}
