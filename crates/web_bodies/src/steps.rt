//! Where one byte leads from each place of a body.

ghost use Rattle.std.specs.Prelude.{◌≡◌, ◌+◌, ◌<◌, ◌==◌, if◌then◌else◌};
ghost use Rattle.web_bodies.specs.Body.{most_trailers, IsReached};
ghost use Rattle.web_bodies.specs.Steps as steps;
ghost use Rattle.web_bodies.specs.Calls as calls;

use crate::{BodyFault, BodyPlace, TrailerPlace};
use web_heads::BodyKind;

/// The longest trailer section, in bytes, the empty line included.
const MOST_TRAILERS: u64 = 16_384;

/// Where the first byte of a body of a kind stands, which is byte `at` of the connection.
#[tactic(auto, unfolding(crate::specs::Steps::first_place))]
pub fn first_place(kind: BodyKind, at: u64) -> BodyPlace
    ensures place { result ≡ steps.first_place kind at }
    ensures reached { IsReached result }
{
    match kind {
        BodyKind::Length(count) => length_place(count),
        BodyKind::Chunks => BodyPlace::ChunkLine { at },
        BodyKind::ToEnd => BodyPlace::DataToEnd,
    }
}

/// How many of the next `available` bytes are payload, whatever they are.
#[tactic(auto, unfolding(crate::specs::Calls::payload_ahead))]
pub fn payload_ahead(place: BodyPlace, available: usize) -> usize
    ensures { result ≡ calls.payload_ahead place available }
{
    match place {
        BodyPlace::DataByLength { left } => left.min(available as u64) as usize,
        BodyPlace::DataToEnd => available,
        BodyPlace::ChunkData { left } => left.min(available as u64) as usize,
        _ => 0,
    }
}

/// After `count` bytes of payload.
#[tactic(auto, unfolding(crate::specs::Calls::payload_ahead, crate::specs::Calls::place_after))]
pub fn place_after(place: BodyPlace, count: u64) -> BodyPlace
    requires ahead { calls.payload_ahead place count ≡ count }
    requires reached { IsReached place }
    ensures place { result ≡ calls.place_after place count }
    ensures reached { IsReached result }
{
    match place {
        BodyPlace::DataByLength { left } => length_place(left - count),
        BodyPlace::ChunkData { left } => data_place(left - count),
        _ => place,
    }
}

/// In a body by length, where `left` bytes are to come.
#[tactic(auto, unfolding(crate::specs::Steps::length_place))]
pub fn length_place(left: u64) -> BodyPlace
    ensures place { result ≡ steps.length_place left }
    ensures reached { IsReached result }
{
    if left == 0 {
        BodyPlace::Over
    } else {
        BodyPlace::DataByLength { left }
    }
}

/// In the data of a chunk, where `left` bytes are to come.
#[tactic(auto, unfolding(crate::specs::Steps::data_place))]
pub fn data_place(left: u64) -> BodyPlace
    ensures place { result ≡ steps.data_place left }
    ensures reached { IsReached result }
{
    if left == 0 {
        BodyPlace::ChunkCr
    } else {
        BodyPlace::ChunkData { left }
    }
}

/// After the whole chunk line that begins at byte `at`, by the size that it gives, if it is one.
#[tactic(auto, unfolding(crate::specs::Steps::line_place, crate::specs::Steps::size_place))]
pub fn line_place(at: u64, size: Option<u64>) -> BodyPlace
    ensures place { result ≡ steps.line_place at size }
    ensures reached { IsReached result }
{
    match size {
        None => BodyPlace::Refused {
            fault: BodyFault::BadChunk { at },
        },
        Some(0) => BodyPlace::Trailers {
            count: 0,
            line: TrailerPlace::LineStart,
        },
        Some(left) => BodyPlace::ChunkData { left },
    }
}

/// After the byte at place `at`, which should be the CR after the data of a chunk.
#[tactic(auto, unfolding(crate::specs::Steps::cr_place))]
pub fn cr_place(at: u64, byte: u8) -> BodyPlace
    ensures place { result ≡ steps.cr_place at byte }
    ensures reached { IsReached result }
{
    if byte == b'\r' {
        BodyPlace::ChunkLf { at }
    } else {
        BodyPlace::Refused {
            fault: BodyFault::BadChunk { at },
        }
    }
}

/// After the byte before place `next`, which should be the LF after the CR at place `at`.
#[tactic(auto, unfolding(crate::specs::Steps::lf_place))]
pub fn lf_place(at: u64, next: u64, byte: u8) -> BodyPlace
    ensures place { result ≡ steps.lf_place at next byte }
    ensures reached { IsReached result }
{
    if byte == b'\n' {
        BodyPlace::ChunkLine { at: next }
    } else {
        BodyPlace::Refused {
            fault: BodyFault::BadChunk { at },
        }
    }
}

/// Where a byte leads in the lines of a trailer section.
#[tactic(auto, unfolding(crate::specs::Steps::trailer_step))]
fn trailer_step(line: TrailerPlace, byte: u8) -> TrailerPlace
    ensures { result ≡ steps.trailer_step line byte }
{
    match line {
        TrailerPlace::LineStart => {
            if byte == b'\r' {
                TrailerPlace::EmptyLineCr
            } else {
                TrailerPlace::InLine
            }
        }
        TrailerPlace::EmptyLineCr => line_byte(byte),
        TrailerPlace::InLine => line_byte(byte),
        TrailerPlace::LineCr => {
            if byte == b'\n' {
                TrailerPlace::LineStart
            } else {
                line_byte(byte)
            }
        }
    }
}

/// The same where the byte can't end a line.
#[tactic(auto)]
fn line_byte(byte: u8) -> TrailerPlace
    ensures { result ≡ (if byte == 13 then TrailerPlace.LineCr else TrailerPlace.InLine) }
{
    if byte == b'\r' {
        TrailerPlace::LineCr
    } else {
        TrailerPlace::InLine
    }
}

/// After one byte of a trailer section of which `count` bytes have come before.
#[tactic(auto, unfolding(crate::specs::Steps::trailers_place, crate::specs::Steps::is_empty_line))]
pub fn trailers_place(count: u64, line: TrailerPlace, byte: u8) -> BodyPlace
    requires { count < most_trailers }
    ensures place { result ≡ steps.trailers_place count line byte }
    ensures reached { IsReached result }
{
    if byte == b'\n' && line == TrailerPlace::EmptyLineCr {
        return BodyPlace::Over;
    }
    if count + 1 < MOST_TRAILERS {
        return BodyPlace::Trailers {
            count: count + 1,
            line: trailer_step(line, byte),
        };
    }
    BodyPlace::Refused {
        fault: BodyFault::HeadTooLong,
    }
}
