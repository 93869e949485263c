ghost use Rattle.std.specs.Prelude.{◌≡◌, ◌++◌, OnOk};
ghost use Rattle.proto_fields.specs.Sizes.{size_of};
ghost use Rattle.proto_fields.specs.Spelling.{spell};
ghost use Rattle.proto_fields.specs.Views.{seen};
ghost use Rattle.relation_parts.specs.Parts as parts;
ghost use Rattle.relation_parts.specs.Spelled as spelled;

use cn_base::{Copied, OutOfMemory};
use proto_fields::{
    MessageWriter, Record, int_size, int64_field, optional_int32, optional_int32_size,
    optional_int64, optional_int64_size,
};
use std::alloc::Global;

/// The numbers from a start by a step before an end (`relations.proto`, Range).
#[derive(Clone, Copy, Debug, PartialEq, Eq)]
pub struct Range {
    /// 0 where it is absent.
    pub start: Option<i64>,
    /// The bound, which the numbers don't reach.
    pub end: i64,
    /// The difference of two numbers that follow one another; 0 where the message has none.
    pub step: i64,
    /// How many parts the numbers are to be held in.
    pub num_partitions: Option<i32>,
}

impl Copied for Range {
    fn copy(&self, _alloc: Global) -> Result<Range, OutOfMemory> {
        Ok(*self)
    }
}

/// The range that a message's records hold (`relations.proto`, Range).
pub fn range_from(items: &[Record]) -> Range
    ensures { result ≡ parts.range_of (seen items.now) }
{
    Range {
        start: optional_int64(items, 1),
        end: int64_field(items, 2),
        step: int64_field(items, 3),
        num_partitions: optional_int32(items, 4),
    }
}

/// Puts the range's message before what stands. Where memory runs out, nothing is promised of what stands then.
pub fn put_range(out: &mut MessageWriter, range: &Range) -> Result<(), OutOfMemory>
    ensures { OnOk result (out.new ≡ spell (spelled.range_fields range.now) ++ out.old) }
{
    out.put_optional_int32(4, range.num_partitions)?;
    out.put_int64(3, range.step)?;
    out.put_int64(2, range.end)?;
    out.put_optional_int64(1, range.start)
}

/// How many bytes the range's message takes. It takes no memory.
pub fn range_size(range: &Range) -> u64
    ensures { result ≡ size_of (spelled.range_fields range.now) }
{
    let start = optional_int64_size(1, range.start);
    let end = int_size(2, range.end);
    let step = int_size(3, range.step);
    let partitions = optional_int32_size(4, range.num_partitions);
    start
        .saturating_add(end)
        .saturating_add(step)
        .saturating_add(partitions)
}
