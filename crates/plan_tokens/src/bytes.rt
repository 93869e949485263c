ghost use Rattle.std.specs.Prelude.{◌≡◌, ◌≤◌, ◌+◌, ◌==◌, not, length, drop, slice_index};
ghost use Rattle.std.specs.List.{prefix_len};
ghost use Rattle.plan_tokens.specs.Bytes as kinds;

/// The byte at a place; 0 past the end.
pub fn byte_at(bytes: &[u8], at: usize) -> u8
    ensures { result ≡ slice_index bytes.now at }
{
    match bytes.get(at) {
        Some(byte) => *byte,
        None => 0,
    }
}

pub fn is_space(byte: u8) -> bool
    ensures { result ≡ kinds.is_space byte }
{
    byte == b' ' || byte == b'\t' || byte == b'\n'
}

pub fn is_digit(byte: u8) -> bool
    ensures { result ≡ kinds.is_digit byte }
{
    byte >= b'0' && byte <= b'9'
}

pub fn is_letter(byte: u8) -> bool
    ensures { result ≡ kinds.is_letter byte }
{
    (byte >= b'A' && byte <= b'Z') || (byte >= b'a' && byte <= b'z') || byte == b'_'
}

pub fn is_word_byte(byte: u8) -> bool
    ensures { result ≡ kinds.is_word_byte byte }
{
    is_letter(byte) || is_digit(byte)
}

fn word_length(bytes: &[u8]) -> usize
    ensures run { result ≡ prefix_len kinds.is_word_byte bytes.now }
    ensures within { result ≤ length bytes.now }
{
    bytes.iter().take_while(|byte| is_word_byte(**byte)).count()
}

/// Whether the bytes are a word: an ASCII letter or `_`, then letters, digits and `_`. It takes no memory.
pub fn is_word(bytes: &[u8]) -> bool
    ensures { result ≡ kinds.is_word bytes.now }
{
    is_letter(byte_at(bytes, 0)) && word_length(bytes) == bytes.len()
}

/// How many bytes of a word stand at the front: letters, digits and `_`. It takes no memory.
pub fn word_bytes(bytes: &[u8]) -> usize
    ensures run { result ≡ prefix_len kinds.is_word_byte bytes.now }
    ensures within { result ≤ length bytes.now }
{
    word_length(bytes)
}

/// Where the bytes of a word that begin at a place end.
pub fn word_end(bytes: &[u8], at: usize) -> usize
    requires { at ≤ length bytes.now }
    ensures run { result ≡ at + prefix_len kinds.is_word_byte (drop at bytes.now) }
    ensures within { result ≤ length bytes.now }
{
    at + word_length(&bytes[at..])
}

fn digit_count(bytes: &[u8]) -> usize
    ensures run { result ≡ prefix_len kinds.is_digit bytes.now }
    ensures within { result ≤ length bytes.now }
{
    bytes.iter().take_while(|byte| is_digit(**byte)).count()
}

/// Where the digits that begin at a place end.
pub fn digits_end(bytes: &[u8], at: usize) -> usize
    requires { at ≤ length bytes.now }
    ensures run { result ≡ at + prefix_len kinds.is_digit (drop at bytes.now) }
    ensures within { result ≤ length bytes.now }
{
    at + digit_count(&bytes[at..])
}

fn space_count(bytes: &[u8]) -> usize
    ensures run { result ≡ prefix_len kinds.is_space bytes.now }
    ensures within { result ≤ length bytes.now }
{
    bytes.iter().take_while(|byte| is_space(**byte)).count()
}

/// Where the spaces that begin at a place end.
pub fn spaces_end(bytes: &[u8], at: usize) -> usize
    requires { at ≤ length bytes.now }
    ensures run { result ≡ at + prefix_len kinds.is_space (drop at bytes.now) }
    ensures within { result ≤ length bytes.now }
{
    at + space_count(&bytes[at..])
}

fn plain_length(bytes: &[u8], quote: u8) -> usize
    ensures run { result ≡ prefix_len (λ b. not (b == quote)) bytes.now }
    ensures within { result ≤ length bytes.now }
{
    bytes.iter().take_while(|byte| **byte != quote).count()
}

/// The first place from one on where a quote stands, or the end.
pub fn next_quote(bytes: &[u8], at: usize, quote: u8) -> usize
    requires { at ≤ length bytes.now }
    ensures run { result ≡ at + prefix_len (λ b. not (b == quote)) (drop at bytes.now) }
    ensures within { result ≤ length bytes.now }
{
    at + plain_length(&bytes[at..], quote)
}
