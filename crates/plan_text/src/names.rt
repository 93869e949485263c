ghost use Rattle.std.specs.Prelude.{◌≡◌, ◌++◌, ◌<◌, ◌≢◌, IfOk, OnOk, encode_utf8};
ghost use Rattle.std.specs.String.{string_bytes};
ghost use Rattle.plan_text.specs.Names as names;

use cn_base::{OutOfMemory, Text};
use plan_tokens::is_word;
use std::alloc::Global;

/// Adds a name with each backquote doubled.
fn push_doubled(out: &mut String, name: &str) -> Result<(), OutOfMemory>
    ensures { OnOk result (string_bytes out.new ≡ string_bytes out.old ++ names.doubled name.now) }
{
    for character in name.chars() {
        push_doubled_character(out, character)?;
    }
    Ok(())
}

fn push_doubled_character(out: &mut String, character: char) -> Result<(), OutOfMemory>
    ensures { OnOk result (string_bytes out.new ≡ string_bytes out.old ++ names.doubled (encode_utf8 character)) }
{
    match character {
        '`' => out.push_str("``"),
        _ => out.push(character),
    }
}

/// A name as a part of an identifier: as it is where it is a word, and else in backquotes.
#[tactic(auto, unfolding(crate::specs::Names::part_of))]
pub fn part_of(alloc: Global, name: Text) -> Result<Text, OutOfMemory>
    ensures { IfOk result (λ t. t ≡ names.part_of name) }
{
    if is_word(name.as_str().as_bytes()) {
        return Ok(name);
    }
    let mut out = String::from_str(alloc, "`")?;
    push_doubled(&mut out, name.as_str())?;
    out.push_str("`")?;
    Ok(Text::from_string(out))
}

/// Adds a text as JSON escapes it.
pub fn push_json(out: &mut String, text: &str) -> Result<(), OutOfMemory>
    ensures { OnOk result (string_bytes out.new ≡ string_bytes out.old ++ names.json_escaped text.now) }
{
    for character in text.chars() {
        push_json_character(out, character)?;
    }
    Ok(())
}

fn push_json_character(out: &mut String, character: char) -> Result<(), OutOfMemory>
    ensures { OnOk result (string_bytes out.new ≡ string_bytes out.old ++ names.json_escaped (encode_utf8 character)) }
{
    match character {
        '"' => out.push_str("\\\""),
        '\\' => out.push_str("\\\\"),
        _ => push_plain(out, character),
    }
}

fn hex_digit(n: u32) -> char
    requires { n < 16 }
    ensures { result ≡ names.hex_digit n }
{
    match char::from_digit(n, 16) {
        Some(digit) => digit,
        None => unreachable!(),
    }
}

fn push_plain(out: &mut String, character: char) -> Result<(), OutOfMemory>
    requires { (character ≢ 34) × (character ≢ 92) }
    ensures { OnOk result (string_bytes out.new ≡ string_bytes out.old ++ names.json_escaped (encode_utf8 character)) }
{
    let code = character as u32;
    if code >= 32 {
        return out.push(character);
    }
    out.push_str("\\u00")?;
    out.push(hex_digit(code / 16))?;
    out.push(hex_digit(code % 16))
}
