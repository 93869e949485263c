ghost use Rattle.std.specs.Prelude.{◌≡◌, ◌==◌, nat_le, length, ◌*◌};
ghost use Rattle.std.specs.Result.{result_ok};
ghost use Rattle.flat_tables.specs.Reading.{i32_at, i64_at};
ghost use Rattle.arrow_read.specs.Tables.{not_negative as said_not_negative};
ghost use Rattle.arrow_read.specs.Columns.{number_4 as said_4, number_8 as said_8, is_number as says_number};

/// The number of 4 bytes at `at`, the least first, or none where they aren't all there.
#[tactic(auto, unfolding(flat_tables::specs::Reading::i32_at))]
pub(crate) fn i32_in(bytes: &[u8], at: usize) -> Option<i32>
    ensures { result ≡ result_ok (i32_at bytes.now at) }
{
    if bytes.len() < 4 || bytes.len() - 4 < at {
        return None;
    }
    let number = &bytes[at..at + 4];
    Some(i32::from_le_bytes([number[0], number[1], number[2], number[3]]))
}

/// The number of 8 bytes at `at`, the least first, or none where they aren't all there.
#[tactic(auto, unfolding(flat_tables::specs::Reading::i64_at))]
pub(crate) fn i64_in(bytes: &[u8], at: usize) -> Option<i64>
    ensures { result ≡ result_ok (i64_at bytes.now at) }
{
    if bytes.len() < 8 || bytes.len() - 8 < at {
        return None;
    }
    let number = &bytes[at..at + 8];
    Some(i64::from_le_bytes([
        number[0], number[1], number[2], number[3], number[4], number[5], number[6], number[7],
    ]))
}

/// The number of 4 bytes of a row.
#[tactic(auto, unfolding(flat_tables::specs::Reading::i32_at))]
pub(crate) fn number_4(numbers: &[u8], row: usize) -> Option<i32>
    ensures { result ≡ said_4 numbers.now row }
{
    if numbers.len() / 4 <= row {
        return None;
    }
    i32_in(numbers, 4 * row)
}

/// The number of 8 bytes of a row.
#[tactic(auto, unfolding(flat_tables::specs::Reading::i64_at))]
pub(crate) fn number_8(numbers: &[u8], row: usize) -> Option<i64>
    ensures { result ≡ said_8 numbers.now row }
{
    if numbers.len() / 8 <= row {
        return None;
    }
    i64_in(numbers, 8 * row)
}

/// A number that isn't negative.
pub(crate) fn not_negative(number: i64) -> Option<usize>
    ensures { result ≡ said_not_negative number }
{
    if number < 0 {
        return None;
    }
    Some(number.unsigned_abs() as usize)
}

/// Whether the number is this count.
pub(crate) fn is_number(number: i64, count: usize) -> bool
    ensures { result ≡ says_number number count }
{
    number >= 0 && number.unsigned_abs() as usize == count
}
