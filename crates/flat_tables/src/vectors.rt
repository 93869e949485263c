ghost use Rattle.std.specs.Prelude.{◌≡◌, ◌+◌, ◌*◌, ◌%◌, ◌^◌, ◌<◌, ◌≤◌, ◌++◌, length, IfOk, OnOk};
ghost use Rattle.std.specs.List.{flat_map};
ghost use Rattle.std.specs.Int.{w32, to_le_bytes};
ghost use Rattle.flat_tables.specs.Layout.{zeros, pair_bytes, vector_bytes, pairs_block, text_block};
ghost use Rattle.flat_tables.specs.Building.{HasRoom, Adds};

use crate::{FlatPair, bytes};
use cn_base::OutOfMemory;

/// Adds the head of a vector of `count` items: four zeros, and the count.
fn write_head(out: &mut Vec<u8>, count: usize) -> Result<(), OutOfMemory>
    requires { count < 2 ^ 32 }
    ensures { OnOk result (out.new.items ≡ out.old.items ++ (zeros 4 ++ to_le_bytes w32 count)) }
{
    bytes::write_zeros(out, 4)?;
    let count = count as u32;
    out.extend_from_slice(&count.to_le_bytes())
}

/// Adds a vector of `count` offsets that are 0.
pub(crate) fn write_blank(out: &mut Vec<u8>, count: usize) -> Result<(), OutOfMemory>
    requires few { count < 2 ^ 29 }
    requires aligned { length out.old.items % 8 ≡ 0 }
    ensures { OnOk result (out.new.items ≡ out.old.items ++ vector_bytes count (zeros (4 * count))) }
{
    write_head(out, count)?;
    bytes::write_zeros(out, 4 * count)?;
    bytes::pad(out)
}

/// Adds the two numbers of a pair.
fn write_pair(out: &mut Vec<u8>, pair: &FlatPair) -> Result<(), OutOfMemory>
    ensures { OnOk result (out.new.items ≡ out.old.items ++ pair_bytes pair.now) }
{
    bytes::write_i64(out, pair.first)?;
    bytes::write_i64(out, pair.second)
}

/// Adds a vector of pairs.
#[tactic(auto, unfolding(crate::specs::Layout::pairs_block))]
pub(crate) fn write_pairs(out: &mut Vec<u8>, pairs: &[FlatPair]) -> Result<usize, OutOfMemory>
    requires { HasRoom out.old.items (pairs_block pairs.now) }
    ensures { IfOk result (Adds out.old.items out.new.items (pairs_block pairs.now)) }
{
    let entry = out.len() + 4;
    write_head(out, pairs.len())?;
    for pair in pairs {
        write_pair(out, pair)?;
    }
    bytes::pad(out)?;
    Ok(entry)
}

/// Adds a text, which ends with a zero byte.
#[tactic(auto, unfolding(crate::specs::Layout::text_block))]
pub(crate) fn write_text(out: &mut Vec<u8>, text: &str) -> Result<usize, OutOfMemory>
    requires { HasRoom out.old.items (text_block text.now) }
    ensures { IfOk result (Adds out.old.items out.new.items (text_block text.now)) }
{
    let entry = out.len() + 4;
    write_head(out, text.len())?;
    out.extend_from_slice(text.as_bytes())?;
    out.push(0)?;
    bytes::pad(out)?;
    Ok(entry)
}
