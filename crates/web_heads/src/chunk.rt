ghost use Rattle.std.specs.Prelude.{◌≡◌, ℕ, IfSome, IfNone};
ghost use Rattle.web_heads.specs.ChunkLines as chunks;
ghost use Rattle.web_heads.specs.Standard.{IsChunkLine};

use httparse::{Status, parse_chunk_size};

/// The longest chunk line that is read, in bytes.
const MOST_CHUNK_LINE: usize = 256;

/// The size that a whole chunk line gives, its CR LF included (RFC 9112, section 7.1). None where the bytes are no chunk line, or more than
/// 256. It takes no memory.
pub fn chunk_size(line: &[u8]) -> Option<u64>
    ensures exact { result ≡ chunks.chunk_size line.now }
    ensures found { IfSome result (IsChunkLine line.now) }
    ensures none { IfNone result ((size : ℕ) → ¬ (IsChunkLine line.now size)) }
{
    if line.len() > MOST_CHUNK_LINE {
        return None;
    }
    match parse_chunk_size(line) {
        Ok(Status::Complete((len, size))) => { if len == line.len() { Some(size) } else { None } }
        Ok(Status::Partial) => None,
        Err(_) => None,
    }
}
