ghost use Rattle.std.specs.Prelude.{◌≡◌, ◌<◌, ◌∷◌, [], IfSome, OnSome};
ghost use Rattle.plan_tokens.specs.Bytes.{EndsInAscii};
ghost use Rattle.plan_tokens.specs.Tokens as tokens;

use crate::Sign;

/// The sign of one byte.
fn short_sign(byte: u8) -> Option<Sign>
    ensures sign { result ≡ tokens.short_sign byte }
    ensures ascii { OnSome result ((0 < byte) × (byte < 128)) }
{
    match byte {
        b'|' => Some(Sign::Bar),
        b',' => Some(Sign::Comma),
        b'.' => Some(Sign::Dot),
        b'@' => Some(Sign::At),
        b'(' => Some(Sign::Open),
        b')' => Some(Sign::Close),
        b'+' => Some(Sign::Plus),
        b'*' => Some(Sign::Star),
        b'%' => Some(Sign::Percent),
        b'=' => Some(Sign::Equal),
        b'<' => Some(Sign::Less),
        b'>' => Some(Sign::Greater),
        _ => None,
    }
}

/// The sign of two bytes that begins so and ends with `=`.
fn long_sign(byte: u8) -> Option<Sign>
    ensures { result ≡ tokens.long_sign byte }
{
    match byte {
        b'!' => Some(Sign::NotEqual),
        b'<' => Some(Sign::LessEqual),
        b'>' => Some(Sign::GreaterEqual),
        _ => None,
    }
}

/// The sign that these three bytes begin with, the longest one, and how many bytes it takes.
pub fn sign_of(first: u8, second: u8, third: u8) -> Option<(Sign, usize)>
    ensures sign { result ≡ tokens.sign_of first second third }
    ensures last { IfSome result (λ found. EndsInAscii (first ∷ second ∷ third ∷ []) found.1) }
{
    if first == b'<' && second == b'=' && third == b'>' {
        return Some((Sign::SameOrNull, 3));
    }
    if second == b'=' {
        if let Some(sign) = long_sign(first) {
            return Some((sign, 2));
        }
    }
    match short_sign(first) {
        Some(sign) => Some((sign, 1)),
        None => None,
    }
}
