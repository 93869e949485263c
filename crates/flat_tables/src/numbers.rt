ghost use Rattle.std.specs.Prelude.{◌≡◌, ◌+◌, ◌^◌, ◌<◌, ◌≤◌, length, Ok, OnOk, IfOk};
ghost use Rattle.flat_tables.specs.Reading.{needed, u8_at, u16_at, i16_at, u32_at, i32_at, i64_at, target_at, Seen};

use crate::FlatFault;

/// The `count` bytes at `place`.
fn needed(buffer: &[u8], place: usize, count: usize) -> Result<&[u8], FlatFault>
    ensures bytes { Seen (λ bytes. bytes.now) result (needed buffer.now place count) }
    ensures length { IfOk result (λ bytes. length bytes.now ≡ count) }
    ensures within { OnOk result (place + count ≤ length buffer.now) }
{
    if buffer.len() < count || buffer.len() - count < place {
        return Err(FlatFault::OutOfRange { at: place });
    }
    Ok(&buffer[place..place + count])
}

#[tactic(auto, unfolding(crate::specs::Reading::u8_at))]
pub(crate) fn u8_at(buffer: &[u8], place: usize) -> Result<u8, FlatFault>
    ensures { result ≡ u8_at buffer.now place }
{
    let bytes = needed(buffer, place, 1)?;
    Ok(bytes[0])
}

#[tactic(auto, unfolding(crate::specs::Reading::u16_at))]
pub(crate) fn u16_at(buffer: &[u8], place: usize) -> Result<u16, FlatFault>
    ensures number { result ≡ u16_at buffer.now place }
    ensures within { OnOk result (place + 2 ≤ length buffer.now) }
{
    let bytes = needed(buffer, place, 2)?;
    Ok(u16::from_le_bytes([bytes[0], bytes[1]]))
}

#[tactic(auto, unfolding(crate::specs::Reading::i16_at))]
pub(crate) fn i16_at(buffer: &[u8], place: usize) -> Result<i16, FlatFault>
    ensures { result ≡ i16_at buffer.now place }
{
    let bytes = needed(buffer, place, 2)?;
    Ok(i16::from_le_bytes([bytes[0], bytes[1]]))
}

#[tactic(auto, unfolding(crate::specs::Reading::u32_at))]
pub(crate) fn u32_at(buffer: &[u8], place: usize) -> Result<u32, FlatFault>
    ensures number { result ≡ u32_at buffer.now place }
    ensures within { OnOk result (place + 4 ≤ length buffer.now) }
{
    let bytes = needed(buffer, place, 4)?;
    Ok(u32::from_le_bytes([bytes[0], bytes[1], bytes[2], bytes[3]]))
}

#[tactic(auto, unfolding(crate::specs::Reading::i32_at))]
pub(crate) fn i32_at(buffer: &[u8], place: usize) -> Result<i32, FlatFault>
    ensures number { result ≡ i32_at buffer.now place }
    ensures within { OnOk result (place + 4 ≤ length buffer.now) }
{
    let bytes = needed(buffer, place, 4)?;
    Ok(i32::from_le_bytes([bytes[0], bytes[1], bytes[2], bytes[3]]))
}

#[tactic(auto, unfolding(crate::specs::Reading::i64_at))]
pub(crate) fn i64_at(buffer: &[u8], place: usize) -> Result<i64, FlatFault>
    ensures { result ≡ i64_at buffer.now place }
{
    let bytes = needed(buffer, place, 8)?;
    Ok(i64::from_le_bytes([
        bytes[0], bytes[1], bytes[2], bytes[3], bytes[4], bytes[5], bytes[6], bytes[7],
    ]))
}

/// Where the offset at `place` leads.
#[tactic(auto, unfolding(crate::specs::Reading::target_at))]
pub(crate) fn target_at(buffer: &[u8], place: usize) -> Result<usize, FlatFault>
    ensures place { result ≡ target_at buffer.now place }
    ensures near { IfOk result (λ target. target < length buffer.now + 2 ^ 32) }
{
    let offset = u32_at(buffer, place)?;
    Ok(place + offset as usize)
}
