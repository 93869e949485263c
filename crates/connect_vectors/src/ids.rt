use crate::input::{first_word, unreadable};
use response_buffer::ResponseId;
use std::alloc::{AllocError, Global};

/// The numbers that a response id holds: boot word, execution and place.
pub fn answer(alloc: Global, text: &str) -> Result<String, AllocError> {
    match ResponseId::parse(text) {
        Some(
            ResponseId {
                boot,
                number,
                place,
            },
        ) => { format!(in alloc; "ok {boot} {number} {place}") }
        None => String::from_str(alloc, "none"),
    }
}

/// The text of the response id with a boot word, a number of an execution and a place.
pub fn put(alloc: Global, argument: &str) -> Result<String, AllocError> {
    let (boot, rest) = first_word(argument);
    let (number, place) = first_word(rest);
    match (
        boot.parse::<u64>(),
        number.parse::<u32>(),
        place.parse::<u32>(),
    ) {
        (Ok(boot), Ok(number), Ok(place)) if boot < 1 << 48 && place < 1 << 30 => {
            let text = ResponseId {
                boot,
                number,
                place,
            }
            .to_text(alloc)?;
            String::from_str(alloc, text.as_str())
        }
        _ => unreadable(alloc),
    }
}
