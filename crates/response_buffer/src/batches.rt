ghost use Rattle.std.specs.Prelude.{◌≡◌, ◌<◌, ◌≤◌, ◌⊎◌, length, map, IfOk};
ghost use Rattle.cn_types.specs.Weight.{row_weight};
ghost use Rattle.response_buffer.specs.Batches.{IsBatch, IsCutting, batch_ends, BatchEndsAreTheCutting};

use cn_base::{List, OutOfMemory};
use cn_types::Row;
use std::alloc::Global;

/// The most that the rows of a batch weigh together, 1 MiB, unless it has one row alone.
const BATCH_WEIGHT: u64 = 1 << 20;

/// Cuts rows into batches, and gives for each batch the index that follows its last row. A batch is the longest prefix of the remaining
/// rows with at most `max_rows` rows (0: no such limit) and a weight of at most 1 MiB, and has at least one row. Without any row there
/// is one empty batch.
pub fn cut(alloc: Global, rows: &[Row], max_rows: u32) -> Result<List<usize>, OutOfMemory>
    ensures cutting { IfOk result (λ ends. IsCutting max_rows (map row_weight rows.now) ends) }
    ensures ends { IfOk result (λ ends. ends ≡ batch_ends max_rows (map row_weight rows.now)) }
{
    let mut ends = List::new(alloc);
    if rows.is_empty() {
        ends.push(0)?;
        return Ok(ends);
    }
    let mut start = 0;
    while start < rows.len() {
        start = batch_end(rows, start, max_rows);
        ends.push(start)?;
    }
    Ok(ends)
}

/// The end of the batch that begins at `start`.
fn batch_end(rows: &[Row], start: usize, max_rows: u32) -> usize
    requires { start < length rows.now }
    ensures { IsBatch max_rows (map row_weight rows.now) start result }
{
    let limit = start + at_most(rows.len() - start, max_rows);
    let mut weight = rows[start].weight();
    for end in start + 1..limit {
        weight = weight.saturating_add(rows[end].weight());
        if weight > BATCH_WEIGHT {
            return end;
        }
    }
    limit
}

/// `count`, or `max_rows` where that is less and not 0.
fn at_most(count: usize, max_rows: u32) -> usize
    ensures within { result ≤ count }
    ensures limited { 0 < max_rows → result ≤ max_rows }
    ensures full { (result ≡ count) ⊎ ((0 < max_rows) × (result ≡ max_rows)) }
{
    match max_rows {
        0 => count,
        most => count.min(most as usize),
    }
}

/// Rows are cut in one way only, whatever they weigh.
pub fn rows_are_cut_in_one_way()
    ensures { BatchEndsAreTheCutting }
{}
