ghost use Rattle.std.specs.Prelude.{◌≡◌, ◌-◌, ◌≤◌, ◌∷◌, ◌==◌, [], length, None, Some, MatchOption, position, take, drop, ℕ, List};
ghost use Rattle.std.specs.Option.{option_copied};
ghost use Rattle.std.specs.Str.{bytes_eq, str_to_ascii_lowercase};
ghost use Rattle.web_heads.specs.Texts.{cut};
ghost use Rattle.web_frames.specs.Lines as lines;

/// The place after the first CR LF.
fn line_end(text: &[u8]) -> Option<usize>
    ensures { MatchOption result (lines.lines_of text.now ≡ text.now ∷ [])
        (λ stop. (2 ≤ stop) × (stop ≤ length text.now)
        × (lines.lines_of text.now ≡ take (stop - 2) text.now ∷ lines.lines_of (drop stop text.now))) }
{
    for place in 0..text.len().saturating_sub(1) {
        if text[place] == b'\r' && text[place + 1] == b'\n' {
            return Some(place + 2);
        }
    }
    None
}

/// The place of the first colon.
fn first_colon(line: &[u8]) -> Option<usize>
    ensures { result ≡ position (λ b. b == 58) line.now }
{
    line.iter().position(|byte| *byte == b':')
}

/// The text without one space at its beginning.
fn without_space(text: &[u8]) -> &[u8]
    ensures { result.now ≡ lines.without_space text.now }
{
    match text {
        [b' ', rest @ ..] => rest,
        _ => text,
    }
}

/// The text is `name` in either case, where `name` is in lower case.
fn equals_ignoring_case(text: &[u8], name: &[u8]) -> bool
    requires { str_to_ascii_lowercase name.now ≡ name.now }
    ensures { result ≡ bytes_eq (str_to_ascii_lowercase text.now) name.now }
{
    text.eq_ignore_ascii_case(name)
}

/// The value of a line `name:value` of this name, which is in lower case.
#[tactic(auto, unfolding(crate::specs::Lines::value_of))]
fn value_of<'a>(line: &'a [u8], name: &[u8]) -> Option<&'a [u8]>
    requires { str_to_ascii_lowercase name.now ≡ name.now }
    ensures { option_copied result ≡ lines.value_of name.now line.now }
{
    let place = first_colon(line)?;
    if equals_ignoring_case(&line[..place], name) {
        Some(without_space(&line[place + 1..]))
    } else {
        None
    }
}

/// The value of the first line of a name, which is in lower case.
pub(crate) fn first_value<'a>(text: &'a [u8], name: &[u8]) -> Option<&'a [u8]>
    requires { str_to_ascii_lowercase name.now ≡ name.now }
    ensures { option_copied result ≡ lines.first_value name.now text.now }
{
    let mut rest = text;
    while let Some(stop) = line_end(rest) {
        if let Some(value) = value_of(&rest[..stop - 2], name) {
            return Some(value);
        }
        rest = &rest[stop..];
    }
    value_of(rest, name)
}
