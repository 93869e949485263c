ghost use Rattle.std.specs.Prelude.{◌≡◌, ◌+◌, ◌-◌, ◌<◌, ◌^◌, IfOk, IfSome, option_map};
ghost use Rattle.arrow_ipc.specs.Holds.{buffer_count as said_count};
ghost use Rattle.arrow_read.specs.Columns.{has_bits as says_bits, has_4s as says_4s, has_8s as says_8s, first_offset as said_first_offset, has_offsets as says_offsets, is_long_enough as says_long, is_sound as says_sound, all_below, misses_below, is_present as says_present, is_text_place, nulls_of as said_nulls, buffers_in as said_buffers, row_fault as said_row_fault, text_fault as said_text_fault, date_fault as said_date_fault, first_fault as said_first_fault};
ghost use Rattle.arrow_read.specs.Reading.{column_in as said_column};

use crate::ArrowFault;
use crate::batch::BatchTables;
use crate::cells::{is_present, text_at, utf8_at};
use crate::numbers::{is_number, not_negative, number_4};
use crate::pair::{Pair, buffer_at, pair_at};
use cn_types::DataType;
use std::marker::Model;

/// The first and the last day of a date, 0001-01-01 and 9999-12-31, counted from 1970-01-01.
const FIRST_DAY: i32 = -719_162;

const LAST_DAY: i32 = 2_932_896;

/// The buffers of a batch's column (Arrow Columnar Format, "Physical Memory Layout"): the validity, the one behind it, and the texts, of
/// which only a column of texts has any.
#[derive(Debug, Drop)]
pub(crate) struct Column<'a> {
    pub(crate) kind: DataType,
    pub(crate) validity: &'a [u8],
    pub(crate) values: &'a [u8],
    pub(crate) texts: &'a [u8],
}

impl<'a> Model for Column<'a> {
    ghost use Rattle.arrow_read.specs.Columns.{ColumnView};

    ghost Value = { ColumnView };

    ghost view = { λ c. record { kind = c.kind; validity = c.validity.now; values = c.values.now; texts = c.texts.now } };
}

/// How many buffers a column has behind its validity.
pub(crate) fn buffer_count(kind: DataType) -> usize
    ensures { result ≡ said_count kind }
{
    match kind {
        DataType::Boolean => 1,
        DataType::Integer => 1,
        DataType::Long => 1,
        DataType::Text => 2,
        DataType::Date => 1,
    }
}

/// Whether there are so many bits.
fn has_bits(count: usize, bits: &[u8]) -> bool
    ensures { result ≡ says_bits count bits.now }
{
    count <= bits.len().saturating_mul(8)
}

/// Whether there are so many numbers of 4 bytes.
fn has_4s(count: usize, numbers: &[u8]) -> bool
    ensures { result ≡ says_4s count numbers.now }
{
    count <= numbers.len() / 4
}

/// Whether there are so many numbers of 8 bytes.
fn has_8s(count: usize, numbers: &[u8]) -> bool
    ensures { result ≡ says_8s count numbers.now }
{
    count <= numbers.len() / 8
}

/// The first offset, if it lies in the texts.
#[tactic(auto, unfolding(crate::specs::Columns::first_offset))]
fn first_offset(offsets: &[u8], texts: &[u8]) -> Option<usize>
    ensures { result ≡ said_first_offset offsets.now texts.now }
{
    let number = number_4(offsets, 0)?;
    let from = not_negative(i64::from(number))?;
    if texts.len() < from {
        return None;
    }
    Some(from)
}

/// Whether the offsets of all rows rise and lie in the texts.
fn has_texts(count: usize, offsets: &[u8], texts: &[u8]) -> bool
    ensures { result ≡ all_below count (is_text_place offsets.now texts.now) }
{
    for row in 0..count {
        let Some(_) = text_at(offsets, texts, row) else {
            return false;
        };
    }
    true
}

/// Whether there is an offset for each row and one more, which rise and lie in the texts, or none of no row.
#[tactic(auto, unfolding(crate::specs::Columns::has_offsets))]
fn has_offsets(count: usize, offsets: &[u8], texts: &[u8]) -> bool
    ensures { result ≡ says_offsets count offsets.now texts.now }
{
    if count == 0 && offsets.is_empty() {
        return true;
    }
    if first_offset(offsets, texts).is_none() {
        return false;
    }
    has_texts(count, offsets, texts)
}

/// How many rows are null.
fn null_count(count: usize, validity: &[u8]) -> usize
    ensures { result ≡ misses_below count (says_present validity.now) }
{
    let mut nulls = 0;
    for row in 0..count {
        if !is_present(validity, row) {
            nulls += 1;
        }
    }
    nulls
}

impl<'a> Column<'a> {
    /// Whether the buffer behind the validity is long enough for so many rows.
    #[tactic(auto, unfolding(crate::specs::Columns::is_long_enough))]
    fn is_long_enough(&self, count: usize) -> bool
        ensures { result ≡ says_long count self.now }
    {
        match self.kind {
            DataType::Boolean => has_bits(count, self.values),
            DataType::Integer => has_4s(count, self.values),
            DataType::Long => has_8s(count, self.values),
            DataType::Text => has_offsets(count, self.values, self.texts),
            DataType::Date => has_4s(count, self.values),
        }
    }

    /// Whether all buffers are long enough, and as many rows are null as the node says.
    #[tactic(auto, unfolding(crate::specs::Columns::is_sound))]
    fn is_sound(&self, count: usize, nulls: i64) -> bool
        ensures { result ≡ says_sound count nulls self.now }
    {
        if !self.validity.is_empty() && !has_bits(count, self.validity) {
            return false;
        }
        if !self.is_long_enough(count) {
            return false;
        }
        is_number(nulls, null_count(count, self.validity))
    }

    /// What is wrong with the value of a row, if it has one: a text that isn't UTF-8, or a date out of range.
    #[tactic(auto, unfolding(crate::specs::Columns::row_fault))]
    fn row_fault(&self, place: usize, row: usize) -> Option<ArrowFault>
        requires { row < 2 ^ 64 - 1 }
        ensures { result ≡ said_row_fault place self.now row }
    {
        if !is_present(self.validity, row) {
            return None;
        }
        match self.kind {
            DataType::Boolean => None,
            DataType::Integer => None,
            DataType::Long => None,
            DataType::Text => text_fault(place, row, utf8_at(self.values, self.texts, row)),
            DataType::Date => { date_fault(place, row, number_4(self.values, row).unwrap_or(0)) }
        }
    }

    /// What is wrong with the first row that has a fault.
    fn first_fault(&self, place: usize, count: usize) -> Option<ArrowFault>
        ensures { result ≡ said_first_fault count (said_row_fault place self.now) }
    {
        for row in 0..count {
            if let Some(fault) = self.row_fault(place, row) {
                return Some(fault);
            }
        }
        None
    }
}

fn text_fault(place: usize, row: usize, text: Option<&str>) -> Option<ArrowFault>
    ensures { result ≡ said_text_fault place row (option_map (λ bytes. bytes.now) text.entry) }
{
    match text {
        Some(_) => None,
        None => Some(ArrowFault::NotUtf8 { column: place, row }),
    }
}

fn date_fault(place: usize, row: usize, days: i32) -> Option<ArrowFault>
    ensures { result ≡ said_date_fault place row days }
{
    if FIRST_DAY <= days && days <= LAST_DAY {
        return None;
    }
    Some(ArrowFault::BadDate { column: place, row })
}

/// How many nulls a column's node says, if it has the batch's length.
fn nulls_of(count: usize, node: Option<Pair>) -> Option<i64>
    ensures { result ≡ said_nulls count node }
{
    match node {
        Some(node) if is_number(node.first, count) => Some(node.second),
        _ => None,
    }
}

/// A column's buffers, from the one of this number on.
#[tactic(auto, unfolding(crate::specs::Columns::buffers_in))]
fn buffers_in<'a>(
    batch: &BatchTables,
    body: &'a [u8],
    first: usize,
    kind: DataType,
) -> Option<Column<'a>>
    ensures buffers { result ≡ said_buffers batch.now body.now first kind }
    ensures number { IfSome result (λ _. first + 1 + said_count kind < 2 ^ 64) }
{
    let validity = buffer_at(&batch.spans, body, first)?;
    let values = buffer_at(&batch.spans, body, first + 1)?;
    let texts = match kind {
        DataType::Text => buffer_at(&batch.spans, body, first + 2)?,
        _ => b"",
    };
    Some(Column {
        kind,
        validity,
        values,
        texts,
    })
}

/// The column at `place`, whose buffers begin with the one of number `first`. The error is the first fault of the column.
#[tactic(auto, unfolding(crate::specs::Reading::column_in))]
pub(crate) fn column_in<'a>(
    batch: &BatchTables,
    body: &'a [u8],
    place: usize,
    first: usize,
    kind: DataType,
) -> Result<Column<'a>, ArrowFault>
    ensures column { result ≡ said_column batch.now body.now place first kind }
    ensures number { IfOk result (λ _. first + 1 + said_count kind < 2 ^ 64) }
{
    let Some(nulls) = nulls_of(batch.count, pair_at(&batch.nodes, place)) else {
        return Err(ArrowFault::BadLength { column: place });
    };
    let Some(column) = buffers_in(batch, body, first, kind) else {
        return Err(ArrowFault::BadBuffer { column: place });
    };
    if !column.is_sound(batch.count, nulls) {
        return Err(ArrowFault::BadBuffer { column: place });
    }
    match column.first_fault(place, batch.count) {
        Some(fault) => Err(fault),
        None => Ok(column),
    }
}
