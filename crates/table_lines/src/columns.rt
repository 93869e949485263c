ghost use Rattle.std.specs.Prelude.{◌≡◌, length, IfOk};
ghost use Rattle.std.specs.List.{prefix_len};
ghost use Rattle.plan_tokens.specs.Bytes as kinds;
ghost use Rattle.table_lines.specs.Lines as lines;

use crate::lines::LinedTable;
use crate::pieces::Pieces;
use cn_base::{List, OutOfMemory, Text};
use cn_types::{DataType, Field, Schema};
use plan_tokens::{byte_at, is_letter, is_word, word_bytes};
use std::alloc::Global;

/// The type of a word.
fn kind_of_word(word: &[u8]) -> Option<DataType>
    ensures { result ≡ lines.kind_of_word word.now }
{
    if word == b"integer".as_slice() {
        return Some(DataType::Integer);
    }
    if word == b"long".as_slice() {
        return Some(DataType::Long);
    }
    if word == b"string".as_slice() {
        return Some(DataType::Text);
    }
    if word == b"boolean".as_slice() {
        return Some(DataType::Boolean);
    }
    if word == b"date".as_slice() {
        return Some(DataType::Date);
    }
    None
}

/// A word as a text.
#[tactic(auto, using(crate::proofs::PieceFacts::word_utf8))]
fn text_of_word(alloc: Global, word: &[u8]) -> Result<Text, OutOfMemory>
    requires { prefix_len kinds.is_word_byte word.now ≡ length word.now }
    ensures { IfOk result (λ t. t ≡ word.now) }
{
    match std::str::from_utf8(word) {
        Ok(text) => Text::of(alloc, text),
        Err(_) => unreachable!(),
    }
}

/// The column of `NAME:TYPE`.
#[tactic(auto, using(crate::proofs::PieceFacts::run_of_run))]
fn column_of(alloc: Global, piece: &[u8]) -> Result<Option<Field>, OutOfMemory>
    ensures { IfOk result (λ found. found ≡ lines.column_of piece.now) }
{
    let size = word_bytes(piece);
    if !is_letter(byte_at(piece, 0)) || byte_at(piece, size) != b':' {
        return Ok(None);
    }
    let Some(kind) = kind_of_word(&piece[size + 1..]) else {
        return Ok(None);
    };
    let name = text_of_word(alloc, &piece[..size])?;
    Ok(Some(Field {
        name,
        kind,
        nullable: true,
    }))
}

/// The columns of all pieces.
fn columns_of(alloc: Global, pieces: &mut Pieces<'_>) -> Result<Option<List<Field>>, OutOfMemory>
    ensures { IfOk result (λ found. found ≡ lines.columns_of pieces.old) }
{
    let mut fields = List::new(alloc);
    while let Some(piece) = pieces.next() {
        match column_of(alloc, piece)? {
            Some(field) => fields.push(field)?,
            None => return Ok(None),
        }
    }
    Ok(Some(fields))
}

/// The table of a line, whose words are parted by single spaces: `table`, its name, and one or more columns.
#[tactic(auto, using(crate::proofs::PieceFacts::whole_word))]
pub fn table_of_line(alloc: Global, line: &[u8]) -> Result<Option<LinedTable>, OutOfMemory>
    ensures { IfOk result (λ found. found ≡ lines.table_of_line line.now) }
{
    let mut pieces = Pieces::of(line, b' ');
    let Some(first) = pieces.next() else {
        return Ok(None);
    };
    let Some(name) = pieces.next() else {
        return Ok(None);
    };
    if first != b"table".as_slice() || !is_word(name) {
        return Ok(None);
    }
    let Some(fields) = columns_of(alloc, &mut pieces)? else {
        return Ok(None);
    };
    if fields.is_empty() {
        return Ok(None);
    }
    Ok(Some(LinedTable {
        name: text_of_word(alloc, name)?,
        schema: Schema(fields),
        rows: List::new(alloc),
    }))
}
