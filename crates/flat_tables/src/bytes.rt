ghost use Rattle.std.specs.Prelude.{◌≡◌, ◌+◌, ◌^◌, ◌-◌, ◌<◌, ◌≤◌, ◌++◌, length, take, drop, OnOk};
ghost use Rattle.std.specs.Int.{w32, to_le_bytes, next_multiple_of};
ghost use Rattle.flat_tables.specs.Layout.{zeros, i64_bytes};

use cn_base::OutOfMemory;

/// Adds `count` zeros.
pub(crate) fn write_zeros(out: &mut Vec<u8>, count: usize) -> Result<(), OutOfMemory>
    requires { count < 2 ^ 32 }
    ensures { OnOk result (out.new.items ≡ out.old.items ++ zeros count) }
{
    out.resize(out.len() + count, 0)
}

/// Adds a number of 8 bytes.
#[tactic(auto, unfolding(crate::specs::Layout::i64_bytes))]
pub(crate) fn write_i64(out: &mut Vec<u8>, number: i64) -> Result<(), OutOfMemory>
    ensures { OnOk result (out.new.items ≡ out.old.items ++ i64_bytes number) }
{
    out.extend_from_slice(&number.to_le_bytes())
}

/// Adds zeros up to the next multiple of 8.
pub(crate) fn pad(out: &mut Vec<u8>) -> Result<(), OutOfMemory>
    ensures { OnOk result (out.new.items ≡ out.old.items ++ zeros (next_multiple_of (length out.old.items) 8 - length out.old.items)) }
{
    let size = out.len().next_multiple_of(8);
    write_zeros(out, size - out.len())
}

/// Writes an offset over the 4 bytes at `place`.
pub(crate) fn set_offset(out: &mut Vec<u8>, place: usize, offset: u32)
    requires { place + 4 ≤ length out.old.items }
    ensures { out.new.items ≡ take place out.old.items ++ (to_le_bytes w32 offset ++ drop (place + 4) out.old.items) }
{
    out[place..place + 4].copy_from_slice(&offset.to_le_bytes());
}
