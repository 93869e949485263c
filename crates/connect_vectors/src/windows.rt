ghost use Rattle.std.specs.Prelude.{◌<◌, ◌≤◌};

use crate::input::{first_word, unreadable};
use cn_base::{Bytes, List, Text};
use cn_types::{Row, Value};
use response_buffer::{Missing, Retained, cut};
use std::alloc::{AllocError, Global};
use std::fmt::Write;

/// The greatest place that a window may have reached before a push.
const LAST_PLACE: u32 = 4_194_305;

/// The ends of batches of at most so many rows, over rows of one text each that have so many bytes.
pub fn cutting(alloc: Global, argument: &str) -> Result<String, AllocError> {
    let (most, lengths) = first_word(argument);
    match (most.parse::<u32>(), rows_of(alloc, lengths)?) {
        (Ok(most), Some(rows)) => ends(alloc, rows.as_slice(), most),
        _ => unreadable(alloc),
    }
}

fn ends(alloc: Global, rows: &[Row], most: u32) -> Result<String, AllocError> {
    let ends = cut(alloc, rows, most)?;
    let mut out = String::from_str(alloc, "ok")?;
    for end in ends.as_slice() {
        write!(out, " {end}")?;
    }
    Ok(out)
}

fn rows_of(alloc: Global, lengths: &str) -> Result<Option<List<Row>>, AllocError> {
    let mut rows = List::new(alloc);
    for length in lengths.split_ascii_whitespace() {
        let Ok(length) = length.parse::<u32>() else {
            return Ok(None);
        };
        rows.push(row_of(alloc, length)?)?;
    }
    Ok(Some(rows))
}

fn row_of(alloc: Global, length: u32) -> Result<Row, AllocError> {
    let mut text = String::new(alloc);
    for _byte in 0..length {
        text.push('x')?;
    }
    let mut values = List::new(alloc);
    values.push(Value::Text(Text::from_string(text)))?;
    Ok(Row(values))
}

/// The steps of a window with a buffer, `push LENGTH`, `take PLACE` and `until PLACE`, parted by `; `, each with what it
/// answers; a push with the first kept place, the highest and the weight.
pub fn window(alloc: Global, argument: &str) -> Result<String, AllocError> {
    let (buffer, steps) = first_word(argument);
    match buffer.parse::<u64>() {
        Ok(buffer) if 1 <= buffer && buffer <= 67_108_864 => played(alloc, buffer, steps),
        _ => unreadable(alloc),
    }
}

fn played(alloc: Global, buffer: u64, steps: &str) -> Result<String, AllocError>
    requires low { 1 ≤ buffer }
    requires high { buffer ≤ 67108864 }
{
    let mut window = Retained::new(alloc, buffer);
    let mut out = String::from_str(alloc, "ok")?;
    for step in steps.split("; ") {
        play(alloc, &mut window, &mut out, step)?;
    }
    Ok(out)
}

fn play(
    alloc: Global,
    window: &mut Retained,
    out: &mut String,
    step: &str,
) -> Result<(), AllocError> {
    let (verb, number) = first_word(step);
    let Ok(number) = number.parse::<u32>() else {
        return out.push_str(" unreadable;");
    };
    match verb {
        "push" => push(alloc, window, out, number),
        "take" => take(window, out, number),
        "until" => {
            let known = window.release_until(number);
            write!(out, " {known};")
        }
        _ => out.push_str(" unreadable;"),
    }
}

fn push(
    alloc: Global,
    window: &mut Retained,
    out: &mut String,
    length: u32,
) -> Result<(), AllocError> {
    if window.high() > LAST_PLACE {
        return out.push_str(" full;");
    }
    let mut response = Bytes::new(alloc);
    for _byte in 0..length {
        response.append(b"x")?;
    }
    match window.push(response) {
        Ok(()) => {
            let first = window.first_kept();
            let high = window.high();
            let weight = window.weight();
            write!(out, " kept {first}..{high} of {weight};")
        }
        Err(_) => Err(AllocError),
    }
}

fn take(window: &Retained, out: &mut String, place: u32) -> Result<(), AllocError> {
    match window.take(place) {
        Ok(response) => {
            let length = response.len();
            write!(out, " {length} bytes;")
        }
        Err(Missing::Dropped { first }) => write!(out, " Dropped {{ first: {first} }};"),
        Err(Missing::NotSent { high }) => write!(out, " NotSent {{ high: {high} }};"),
    }
}
