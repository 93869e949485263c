ghost use Rattle.std.specs.Prelude.{◌≡◌, ◌≤◌, ◌+◌, ◌*◌, ◌-◌, ◌<◌, ℕ, IfSome, IfNone};
ghost use Rattle.std.specs.Option.{SomeIff};
ghost use Rattle.web_heads.specs.Texts.{decimal_of};
ghost use Rattle.web_heads.specs.Standard.{IsDecimal};

/// The number with one digit more, where it is at most `most`.
fn with_digit(number: u64, digit: u8, most: u64) -> Option<u64>
    requires low { 48 ≤ digit }
    requires high { digit ≤ 57 }
    ensures { SomeIff result (number * 10 + (digit - 48) ≤ most) (number * 10 + (digit - 48)) }
{
    let longer = number
        .checked_mul(10)?
        .checked_add(u64::from(digit - b'0'))?;
    (longer <= most).then_some(longer)
}

/// The number that decimal digits write, up to `most`. Leading zeros are accepted; a sign, white space and an empty text are not. It takes
/// no memory.
pub fn decimal(text: &[u8], most: u64) -> Option<u64>
    ensures exact { result ≡ decimal_of text.now most }
    ensures found { IfSome result (λ number. IsDecimal text.now number × (number ≤ most)) }
    ensures none { IfNone result ((number : ℕ) → IsDecimal text.now number → most < number) }
{
    if text.is_empty() {
        return None;
    }
    let mut number = 0u64;
    for byte in text {
        if !byte.is_ascii_digit() {
            return None;
        }
        number = with_digit(number, *byte, most)?;
    }
    Some(number)
}
