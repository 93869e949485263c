ghost use Rattle.std.specs.Prelude.{◌≡◌, ◌≤◌, ◌-◌, ◌^◌, min, length, drop};
ghost use Rattle.plan_tokens.specs.Tokens as tokens;

use crate::Number;
use crate::bytes::{byte_at, digits_end, is_digit, is_word_byte};

/// The number that digits tell; 2^64 - 1 where it is above that.
fn digits_value(digits: &[u8]) -> u64
    ensures { result ≡ min (tokens.digits_value digits.now) (2 ^ 64 - 1) }
{
    let mut value = 0u64;
    for digit in digits {
        value = value
            .saturating_mul(10)
            .saturating_add(u64::from(digit.saturating_sub(b'0')));
    }
    value
}

/// Whether the word `L` begins at a place, and ends there.
fn begins_with_mark(bytes: &[u8], at: usize) -> bool
    requires { at ≤ length bytes.now }
    ensures { result ≡ tokens.begins_with_mark (drop at bytes.now) }
{
    byte_at(bytes, at) == b'L' && !is_word_byte(byte_at(bytes, at + 1))
}

/// The number at a place: the longest run of digits.
#[tactic(auto, unfolding(crate::specs::Tokens::number_at), using(crate::proofs::Runs::part_of_rest))]
pub fn number_at(bytes: &[u8], at: usize) -> Number
    requires { at ≤ length bytes.now }
    ensures { result ≡ tokens.number_at (drop at bytes.now) }
{
    let end = digits_end(bytes, at);
    Number {
        value: digits_value(&bytes[at..end]),
        long: begins_with_mark(bytes, end),
    }
}

/// The number whose digits stand at a place, where there are some.
pub fn number_before(bytes: &[u8], at: usize) -> Option<Number>
    requires { at ≤ length bytes.now }
    ensures { result ≡ tokens.number_before (drop at bytes.now) }
{
    if is_digit(byte_at(bytes, at)) {
        Some(number_at(bytes, at))
    } else {
        None
    }
}
