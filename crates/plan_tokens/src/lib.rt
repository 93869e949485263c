//! The tokens of pipeline texts: words, names, texts, numbers and signs, each with its place in bytes.
#![tactic(auto)]

mod bytes;
mod keyword;
mod numbers;
mod quoted;
mod reading;
mod signs;
#[cfg(test)]
mod tests;
mod token;
mod tokens;

pub use bytes::{byte_at, is_letter, is_word, word_bytes};
pub use keyword::Keyword;
pub use token::{Number, Placed, Quotation, Sign, Token};
pub use tokens::Tokens;
