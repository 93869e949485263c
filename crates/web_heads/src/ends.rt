ghost use Rattle.std.specs.Prelude.{ℕ, ◌≤◌, IfSome, IfNone};
ghost use Rattle.web_heads.specs.HeadEnds.{EndsLines, IsFirstEnd};

/// The last line's end and the empty line that ends a head.
const TWO_LINE_ENDS: [u8; 4] = *b"\r\n\r\n";

/// The place after the first CR LF CR LF that begins at `start` or later (RFC 9112, section 2.1). A reader that is fed in pieces goes on
/// three bytes before the place where its last search stopped. It takes no memory.
pub fn head_end(bytes: &[u8], start: usize) -> Option<usize>
    ensures found { IfSome result (IsFirstEnd bytes.now start) }
    ensures none { IfNone result ((at : ℕ) → start ≤ at → ¬ EndsLines bytes.now at) }
{
    for at in start..bytes.len().saturating_sub(3) {
        if &bytes[at..at + 4] == TWO_LINE_ENDS.as_slice() {
            return Some(at + 4);
        }
    }
    None
}
