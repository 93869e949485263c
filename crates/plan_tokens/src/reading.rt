ghost use Rattle.std.specs.Prelude.{◌≡◌, ◌≤◌, ◌<◌, ◌==◌, ◌||◌, length, drop, take, IfOk, IsTrue, IsCharBoundary, slice_index};
ghost use Rattle.std.specs.List.{prefix_len};
ghost use Rattle.plan_tokens.specs.Bytes as kinds;
ghost use Rattle.plan_tokens.specs.Tokens as tokens;

use crate::bytes::{byte_at, digits_end, is_digit, is_letter, word_end};
use crate::numbers::{number_at, number_before};
use crate::quoted::{day_of, read_quoted};
use crate::signs::sign_of;
use crate::{Keyword, Quotation, Token};
use cn_base::{OutOfMemory, Text};
use std::alloc::Global;

/// The word at the front, and how many bytes it takes.
#[tactic(auto, using(crate::proofs::Boundaries::word_begins))]
fn first_word(alloc: Global, text: &str) -> Result<(Token, usize), OutOfMemory>
    requires { IsTrue (kinds.is_letter (slice_index text.now 0)) }
    ensures word { IfOk result (λ t. t ≡ (tokens.word_token (take (prefix_len kinds.is_word_byte text.now) text.now), prefix_len kinds.is_word_byte text.now)) }
    ensures some { IfOk result (λ t. 1 ≤ t.1) }
    ensures boundary { IfOk result (λ t. IsCharBoundary text.now t.1) }
{
    let size = word_end(text.as_bytes(), 0);
    let word = &text[..size];
    match Keyword::of(word) {
        Some(keyword) => Ok((Token::Word(keyword), size)),
        None => Ok((Token::Name(Text::of(alloc, word)?), size)),
    }
}

/// What the quote at the front encloses, and how many bytes it takes with its quotes; nothing where the quote never ends.
fn enclosed(alloc: Global, text: &str, quote: u8) -> Result<(Token, usize), OutOfMemory>
    requires first { slice_index text.now 0 ≡ quote }
    requires quote { IsTrue (quote == 96 || quote == 39) }
    ensures token { IfOk result (λ t. t ≡ tokens.enclosed quote text.now) }
    ensures some { IfOk result (λ t. 1 ≤ t.1) }
    ensures boundary { IfOk result (λ t. IsCharBoundary text.now t.1) }
{
    match read_quoted(alloc, text, 1, quote)? {
        Some((read, size)) => {
            if quote == b'`' {
                return Ok((Token::Name(read), 1 + size));
            }
            let day = day_of(alloc, read.as_str())?;
            Ok((Token::Quotation(Quotation { text: read, day }), 1 + size))
        }
        None => Ok((Token::Nothing, text.len())),
    }
}

/// The sign at the front, and how many bytes it takes; nothing where none stands there.
fn first_sign(text: &str) -> (Token, usize)
    requires { 0 < length text.now }
    ensures token { result ≡ tokens.sign_token text.now }
    ensures some { 1 ≤ result.1 }
    ensures boundary { IsCharBoundary text.now result.1 }
{
    let bytes = text.as_bytes();
    match sign_of(byte_at(bytes, 0), byte_at(bytes, 1), byte_at(bytes, 2)) {
        Some((sign, size)) => (Token::Sign(sign), size),
        None => (Token::Nothing, bytes.len()),
    }
}

/// The token at the front of a text that begins with no space, and how many bytes it takes.
#[tactic(auto, using(crate::proofs::Boundaries::number_begins), unfolding(crate::specs::Tokens::first_token))]
pub fn first_token(alloc: Global, text: &str) -> Result<(Token, usize), OutOfMemory>
    requires { 0 < length text.now }
    ensures token { IfOk result (λ t. t ≡ tokens.first_token text.now) }
    ensures some { IfOk result (λ t. 1 ≤ t.1) }
    ensures boundary { IfOk result (λ t. IsCharBoundary text.now t.1) }
{
    let bytes = text.as_bytes();
    let first = byte_at(bytes, 0);
    if is_letter(first) {
        return first_word(alloc, text);
    }
    if is_digit(first) {
        return Ok((Token::Number(number_at(bytes, 0)), digits_end(bytes, 0)));
    }
    if first == b'`' || first == b'\'' {
        return enclosed(alloc, text, first);
    }
    if first == b'-' {
        return Ok((Token::Minus(number_before(bytes, 1)), 1));
    }
    Ok(first_sign(text))
}
