use std::alloc::{AllocError, Global};

/// Whether a line is a call: it has a byte, and doesn't begin a remark.
pub fn is_call(line: &str) -> bool {
    !line.is_empty() && !line.starts_with("#")
}

/// The first word of a line, and what stands after the space behind it.
pub fn first_word(line: &str) -> (&str, &str) {
    line.split_once(" ").unwrap_or((line, ""))
}

/// The most times that a part may be repeated.
const MOST_TIMES: u32 = 1_000_000;

/// The bytes of parts that are joined by commas, each hexadecimal digits, or such and `*` and how often they stand there; `-` is no
/// byte. None where the text is none of these.
pub fn bytes_of(alloc: Global, text: &str) -> Result<Option<Vec<u8>>, AllocError> {
    let mut bytes = Vec::new(alloc);
    if text == "-" {
        return Ok(Some(bytes));
    }
    for part in text.split(",") {
        if !append_part(alloc, &mut bytes, part)? {
            return Ok(None);
        }
    }
    Ok(Some(bytes))
}

/// Appends the bytes of a part, and says whether it is one.
fn append_part(alloc: Global, bytes: &mut Vec<u8>, part: &str) -> Result<bool, AllocError> {
    let (digits, times) = part.split_once("*").unwrap_or((part, "1"));
    let Ok(times) = times.parse::<u32>() else {
        return Ok(false);
    };
    match hex::decode(alloc, digits) {
        Ok(piece) if times <= MOST_TIMES => {
            for _time in 0..times {
                bytes.extend_from_slice(piece.as_slice())?;
            }
            Ok(true)
        }
        Err(hex::FromHexError::OutOfMemory) => Err(AllocError),
        _ => Ok(false),
    }
}

/// The answer to a call whose argument can't be read.
pub fn unreadable(alloc: Global) -> Result<String, AllocError> {
    String::from_str(alloc, "unreadable argument")
}
