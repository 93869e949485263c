ghost use Rattle.std.specs.Prelude.{◌≡◌, ◌≤◌, ◌<◌, take, length, IfOk, OnErr};
ghost use Rattle.std.specs.Io.KnownBytes.{Consumes, IsAtEnd};
ghost use Rattle.cn_base.specs.Outside.{Counted};

use cn_base::{Failed, Source};

/// Reads until the buffer is full or the input ends, and says how many bytes there were: fewer than the buffer has room for only where
/// the input ended.
pub fn read_start<S: Source>(input: &mut S, buffer: &mut [u8]) -> Result<usize, Failed>
    ensures room { IfOk result (λ n. n ≤ length buffer.new) }
    ensures read { IfOk result (λ n. Consumes (S.left input.old) (S.left input.new) (take n buffer.new)) }
    ensures end { IfOk result (λ n. n < length buffer.new → IsAtEnd (S.left input.new)) }
    ensures cause { Counted (S.faults input.old) (S.faults input.new) result }
{
    let mut count = 0;
    while count < buffer.len() {
        let more = input.read(&mut buffer[count..])?;
        if more == 0 {
            break;
        }
        count += more;
    }
    Ok(count)
}
