ghost use Rattle.std.specs.Prelude.{◌≡◌, ◌+◌, ◌^◌, ◌<◌, ◌≤◌, ◌++◌, length, OnOk};
ghost use Rattle.arrow_ipc.specs.Columns.{number_of, bitmap};

use cn_base::OutOfMemory;

/// The byte that has these bits, the least first; there are at most 8.
fn byte_of(bits: &[bool]) -> u8
    requires { length bits.now ≤ 8 }
    ensures number { result ≡ number_of bits.now }
    ensures below { result < 2 ^ length bits.now }
{
    match bits {
        [] => 0,
        [bit, others @ ..] => u8::from(*bit) + 2 * byte_of(others),
    }
}

/// Adds eight bits a byte, the least first (Arrow Columnar Format, "Validity bitmaps").
#[tactic(auto, unfolding(crate::specs::Columns::bitmap))]
pub(crate) fn write_bitmap(out: &mut Vec<u8>, bits: &[bool]) -> Result<(), OutOfMemory>
    ensures { OnOk result (out.new.items ≡ out.old.items ++ bitmap bits.now) }
{
    for at in 0..(bits.len() + 7) / 8 {
        let end = bits.len().min(8 * at + 8);
        out.push(byte_of(&bits[8 * at..end]))?;
    }
    Ok(())
}
