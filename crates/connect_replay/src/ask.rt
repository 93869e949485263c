ghost use Rattle.std.specs.Prelude.{◌≡◌, ◌≢◌, ◌↔◌, ◌<◌, ℕ, ℤ, pos, ◌+ℤ◌, ◌*ℤ◌, List, ◌∷◌, [], ◌++◌, Some, IsTrue, IfOk, IsSomeAnd, MatchOption, codes, FitsSigned};
ghost use Rattle.std.specs.Int.{w64};
ghost use Rattle.std.specs.Fmt.{signed_decimal};
ghost use Rattle.std.specs.String.{string_bytes};
ghost use Rattle.std.specs.List.{join_with_byte};
ghost use Rattle.connect_replay.specs.declared.ask.Ask.{Ask};
ghost use Rattle.connect_replay.specs.Ask.{is_word_byte, IsAsk, IsName, IsNoLine, IsNoScript, IsLineOf, Spells, IsPlain, spelled};
ghost use Rattle.connect_replay.specs.Range.{IsBefore, number_at};

use cn_base::{OutOfMemory, Text};
use std::alloc::Global;

/// One ask of a script: its name, and the range that it asks for.
#[derive(Debug, Drop)]
pub struct Ask {
    pub name: Text,
    pub start: i64,
    pub end: i64,
    pub step: i64,
}

/// The words of an ask's line that say something.
#[derive(Clone, Copy)]
struct LineParts<'a> {
    name: &'a str,
    start: &'a str,
    end: &'a str,
    step: &'a str,
}

/// The ask that this script spells, or None where it spells none.
pub fn parse_script(alloc: Global, script: &[u8]) -> Result<Option<Ask>, OutOfMemory>
    ensures { IfOk result (λ found. MatchOption found (IsNoScript script.now) (Spells script.now)) }
{
    match str::from_utf8(script) {
        Ok(text) => parse_ask(alloc, without_last_lf(text)),
        Err(_) => Ok(None),
    }
}

/// The text without an LF at its end.
fn without_last_lf(text: &str) -> &str
    ensures { IsLineOf text.now result.now }
{
    text.strip_suffix('\n').unwrap_or(text)
}

/// The ask that this line spells, or None where it spells none.
fn parse_ask(alloc: Global, line: &str) -> Result<Option<Ask>, OutOfMemory>
    ensures { IfOk result (λ found. MatchOption found (IsNoLine line.now) (λ ask. IsAsk ask × (line.now ≡ spelled ask))) }
{
    let Some(ask) = only_candidate(alloc, line)? else {
        return Ok(None);
    };
    if spells(alloc, &ask, line)? {
        Ok(Some(ask))
    } else {
        Ok(None)
    }
}

/// The one ask that may spell this line.
fn only_candidate(alloc: Global, line: &str) -> Result<Option<Ask>, OutOfMemory>
    ensures { IfOk result (λ found. (ask : Ask) → IsAsk ask → line.now ≡ spelled ask → found ≡ Some ask) }
{
    let Some(parts) = line_parts(line) else {
        return Ok(None);
    };
    let Some((start, end, step)) = numbers_of(&parts) else {
        return Ok(None);
    };
    let name = Text::of(alloc, parts.name)?;
    Ok(Some(Ask {
        name,
        start,
        end,
        step,
    }))
}

/// Whether the ask is one that a script may have, and spells this line.
fn spells(alloc: Global, ask: &Ask, line: &str) -> Result<bool, OutOfMemory>
    ensures { IfOk result (λ yes. IsTrue yes ↔ (IsAsk ask.now × (line.now ≡ spelled ask.now))) }
{
    if !is_valid(ask) {
        return Ok(false);
    }
    Ok(spelled_text(alloc, ask)?.as_str() == line)
}

/// The parts of a line of six words, of which the first and the third are not looked at.
fn line_parts(line: &str) -> Option<LineParts<'_>>
    ensures { (name start end step : List ℕ) → IsPlain name → IsPlain start → IsPlain end → IsPlain step
        → line.now ≡ join_with_byte 32 (codes "ask" ∷ name ∷ codes "range" ∷ start ∷ end ∷ step ∷ [])
        → IsSomeAnd result (λ p. (p.name.now ≡ name) × (p.start.now ≡ start) × (p.end.now ≡ end) × (p.step.now ≡ step)) }
{
    let (_ask, rest) = next_word(line)?;
    let (name, rest) = next_word(rest)?;
    let (_range, rest) = next_word(rest)?;
    let (start, rest) = next_word(rest)?;
    let (end, step) = next_word(rest)?;
    Some(LineParts {
        name,
        start,
        end,
        step,
    })
}

/// What stands before the first space, and behind it.
fn next_word(text: &str) -> Option<(&str, &str)>
    ensures { (word rest : List ℕ) → IsPlain word → text.now ≡ word ++ 32 ∷ rest → IsSomeAnd result (λ p. (p.0.now ≡ word) × (p.1.now ≡ rest)) }
{
    text.split_once(' ')
}

/// The three numbers, where each is one of 64 bits. Spellings that no ask has are let through.
fn numbers_of(parts: &LineParts<'_>) -> Option<(i64, i64, i64)>
    ensures { (start end step : ℤ) → FitsSigned w64 start → FitsSigned w64 end → FitsSigned w64 step
        → parts.now.start.now ≡ signed_decimal start → parts.now.end.now ≡ signed_decimal end → parts.now.step.now ≡ signed_decimal step
        → result ≡ Some (start, end, step) }
{
    let start = number_of(parts.start)?;
    let end = number_of(parts.end)?;
    let step = number_of(parts.step)?;
    Some((start, end, step))
}

/// The number that a word spells, in its one decimal form or with a `+` or zeros before it.
fn number_of(word: &str) -> Option<i64>
    ensures { (number : ℤ) → FitsSigned w64 number → word.now ≡ signed_decimal number → result ≡ Some number }
{
    word.parse::<i64>().ok()
}

/// Whether a script may have this ask.
fn is_valid(ask: &Ask) -> bool
    ensures { IsTrue result ↔ IsAsk ask.now }
{
    if ask.step == 0 || !is_name(ask.name.as_str()) {
        return false;
    }
    is_few(ask.start, ask.end, ask.step)
}

/// Whether an ask may have this name.
fn is_name(name: &str) -> bool
    ensures { IsTrue result ↔ IsName name.now }
{
    let bytes = name.as_bytes();
    if bytes.is_empty() || bytes.len() > 32 {
        return false;
    }
    bytes.iter().all(|b| is_word_byte(*b))
}

fn is_word_byte(b: u8) -> bool
    ensures { result ≡ is_word_byte b }
{
    matches!(b, b'0'..=b'9' | b'A'..=b'Z' | b'a'..=b'z' | b'_')
}

/// Whether the range has at most 10,000 numbers.
fn is_few(start: i64, end: i64, step: i64) -> bool
    requires { step ≢ pos 0 }
    ensures { IsTrue result ↔ ((place : ℕ) → IsBefore step (number_at start step place) end → place < 10000) }
{
    let number = number_past_limit(start, step);
    let end = i128::from(end);
    if step > 0 {
        number >= end
    } else {
        number <= end
    }
}

/// The number of the range after its first 10,000.
fn number_past_limit(start: i64, step: i64) -> i128
    ensures { result ≡ start +ℤ (pos 10000 *ℤ step) }
{
    i128::from(start) + 10_000 * i128::from(step)
}

/// The line of an ask, without an LF.
fn spelled_text(alloc: Global, ask: &Ask) -> Result<String, OutOfMemory>
    ensures { IfOk result (λ s. string_bytes s ≡ spelled ask.now) }
{
    let name = ask.name.as_str();
    let (start, end, step) = (ask.start, ask.end, ask.step);
    format!(in alloc; "ask {name} range {start} {end} {step}")
}
