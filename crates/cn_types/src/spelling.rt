ghost use Rattle.std.specs.Prelude.{◌≡◌, ◌≢◌, ◌⊎◌, ◌++◌, ◌∷◌, ℕ, ℤ, List, Bool, IfOk, IfSome, IsNone, OnOk, encode_utf8};
ghost use Rattle.std.specs.String.{string_bytes};
ghost use Rattle.std.specs.Fmt.{signed_decimal};
ghost use Rattle.cn_types.specs.declared.value.Value.{Value as AnyValue};
ghost use Rattle.cn_types.specs.Dates.{date_text};
ghost use Rattle.cn_types.specs.Fit.{IsDay, IsInteger, IsLong};
ghost use Rattle.cn_types.specs.Printed.{escaped, boolean_text, pending};
ghost use Rattle.cn_types.specs.Spelled.{Spells, OneValueIsSpelled};

use crate::{DataType, Value, ValueFault};
use cn_base::Text;
use jiff::civil::Date;
use std::alloc::Global;

/// The day number of 0001-01-01.
const FIRST_DAY: i32 = -719_162;

/// Reads a printed value back: null, or a value of the type. `BadValue` says that the text spells no such value.
pub fn value_of_text(alloc: Global, kind: DataType, text: &str) -> Result<Value, ValueFault>
    ensures ok { IfOk result (Spells kind text.now) }
    ensures bad { result ≡ Err ValueFault.BadValue → (v : AnyValue) → ¬ Spells kind text.now v }
    ensures read_back { (v : AnyValue) → Spells kind text.now v
        → (result ≡ Ok v) ⊎ (result ≡ Err ValueFault.OutOfMemory) }
{
    if text == "\\N" {
        return Ok(Value::Null);
    }
    match kind {
        DataType::Boolean => Ok(Value::Boolean(boolean_of_text(text)?)),
        DataType::Integer => Ok(Value::Integer(integer_of_text(alloc, text)?)),
        DataType::Long => Ok(Value::Long(long_of_text(alloc, text)?)),
        DataType::Text => Ok(Value::Text(text_of_spelling(alloc, text)?)),
        DataType::Date => Ok(Value::Date(days_of_text(alloc, text)?)),
    }
}

fn boolean_of_text(text: &str) -> Result<bool, ValueFault>
    ensures ok { IfOk result (λ b. boolean_text b ≡ text.now) }
    ensures bad { result ≡ Err ValueFault.BadValue → (b : Bool) → boolean_text b ≢ text.now }
    ensures memory { result ≢ Err ValueFault.OutOfMemory }
{
    match text {
        "true" => Ok(true),
        "false" => Ok(false),
        _ => Err(ValueFault::BadValue),
    }
}

fn integer_of_text(alloc: Global, text: &str) -> Result<i32, ValueFault>
    ensures ok { IfOk result (λ n. signed_decimal n ≡ text.now) }
    ensures bad { result ≡ Err ValueFault.BadValue → (n : ℤ) → IsInteger n → signed_decimal n ≢ text.now }
{
    let Ok(number) = text.parse::<i32>() else {
        return Err(ValueFault::BadValue);
    };
    if number.to_string(alloc)?.as_str() == text {
        Ok(number)
    } else {
        Err(ValueFault::BadValue)
    }
}

fn long_of_text(alloc: Global, text: &str) -> Result<i64, ValueFault>
    ensures ok { IfOk result (λ n. signed_decimal n ≡ text.now) }
    ensures bad { result ≡ Err ValueFault.BadValue → (n : ℤ) → IsLong n → signed_decimal n ≢ text.now }
{
    let Ok(long) = text.parse::<i64>() else {
        return Err(ValueFault::BadValue);
    };
    if long.to_string(alloc)?.as_str() == text {
        Ok(long)
    } else {
        Err(ValueFault::BadValue)
    }
}

fn days_of_text(alloc: Global, text: &str) -> Result<i32, ValueFault>
    ensures range { IfOk result IsDay }
    ensures ok { IfOk result (λ days. date_text days ≡ text.now) }
    ensures bad { result ≡ Err ValueFault.BadValue → (days : ℤ) → IsDay days → date_text days ≢ text.now }
{
    let Ok(date) = text.parse::<Date>() else {
        return Err(ValueFault::BadValue);
    };
    let days = date.to_plain().to_unix_epoch_day();
    if days >= FIRST_DAY && date.to_string(alloc)?.as_str() == text {
        Ok(days)
    } else {
        Err(ValueFault::BadValue)
    }
}

fn text_of_spelling(alloc: Global, spelling: &str) -> Result<Text, ValueFault>
    ensures ok { IfOk result (λ t. escaped t ≡ spelling.now) }
    ensures bad { result ≡ Err ValueFault.BadValue → (t : List ℕ) → escaped t ≢ spelling.now }
{
    let mut out = String::new(alloc);
    let mut escaping = false;
    for character in spelling.chars() {
        escaping = take_character(&mut out, escaping, character)?;
    }
    if escaping {
        return Err(ValueFault::BadValue);
    }
    Ok(Text::from_string(out))
}

/// Takes a character of a printed text, behind a backslash where `escaping`, and says whether the next one stands behind a backslash.
fn take_character(out: &mut String, escaping: bool, character: char) -> Result<bool, ValueFault>
    ensures ok { IfOk result (λ after. escaped (string_bytes out.new) ++ pending after
        ≡ (escaped (string_bytes out.old) ++ pending escaping) ++ encode_utf8 character) }
    ensures bad { result ≡ Err ValueFault.BadValue → (t rest : List ℕ)
        → escaped t ≢ (escaped (string_bytes out.old) ++ pending escaping) ++ (encode_utf8 character ++ rest) }
{
    if escaping {
        take_escaped(out, character)
    } else {
        take_plain(out, character)
    }
}

fn take_escaped(out: &mut String, letter: char) -> Result<bool, ValueFault>
    ensures ok { IfOk result (λ after. escaped (string_bytes out.new) ++ pending after
        ≡ escaped (string_bytes out.old) ++ 92 ∷ encode_utf8 letter) }
    ensures bad { result ≡ Err ValueFault.BadValue → (t rest : List ℕ)
        → escaped t ≢ escaped (string_bytes out.old) ++ 92 ∷ (encode_utf8 letter ++ rest) }
{
    let Some(character) = plain_character(letter) else {
        return Err(ValueFault::BadValue);
    };
    out.push(character)?;
    Ok(false)
}

fn take_plain(out: &mut String, character: char) -> Result<bool, ValueFault>
    ensures ok { IfOk result (λ after. escaped (string_bytes out.new) ++ pending after
        ≡ escaped (string_bytes out.old) ++ encode_utf8 character) }
    ensures bad { result ≡ Err ValueFault.BadValue → (t rest : List ℕ)
        → escaped t ≢ escaped (string_bytes out.old) ++ (encode_utf8 character ++ rest) }
{
    match character {
        '\\' => Ok(true),
        '\t' => Err(ValueFault::BadValue),
        '\n' => Err(ValueFault::BadValue),
        '\r' => Err(ValueFault::BadValue),
        _ => {
            out.push(character)?;
            Ok(false)
        }
    }
}

/// The character that is written as a backslash and this one, where there is one.
fn plain_character(letter: char) -> Option<char>
    ensures found { IfSome result (λ c. escaped (encode_utf8 c) ≡ 92 ∷ encode_utf8 letter) }
    ensures none { IsNone result → (t rest : List ℕ) → escaped t ≢ 92 ∷ (encode_utf8 letter ++ rest) }
{
    match letter {
        '\\' => Some('\\'),
        't' => Some('\t'),
        'n' => Some('\n'),
        'r' => Some('\r'),
        _ => None,
    }
}

/// Law: one text spells at most one value of a type.
pub fn one_value_is_spelled()
    ensures { OneValueIsSpelled }
{}
