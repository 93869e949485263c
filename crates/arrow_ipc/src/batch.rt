ghost use Rattle.std.specs.Prelude.{◌≡◌, ◌+◌, ◌-◌, ◌%◌, ◌^◌, ◌<◌, ◌≤◌, [], ◌∷◌, ◌++◌, pos, length, map, sum_by, IfOk, OnOk};
ghost use Rattle.std.specs.List.{flat_map};
ghost use Rattle.std.specs.Int.{next_multiple_of};
ghost use Rattle.flat_tables.specs.Layout.{zeros};
ghost use Rattle.arrow_ipc.specs.Columns.{cells, text_size, text_of, truth, bytes_of_4, bytes_of_8, offsets, bitmap, null_count, validity, value_buffers, column_buffers, buffers_from, body_of, spans_from, node_of, nodes_from, Gains};
ghost use Rattle.arrow_ipc.specs.Stream.{CanBeWritten};

use crate::{bitmap, columns};
use cn_base::{List, OutOfMemory};
use cn_types::{DataType, Field, Row, Schema};
use flat_tables::FlatPair;
use std::alloc::Global;

/// The body of a batch, where its buffers stand in it, and the nodes of its columns.
#[derive(Debug, Drop)]
pub(crate) struct Batch {
    pub(crate) body: Vec<u8>,
    pub(crate) spans: List<FlatPair>,
    pub(crate) nodes: List<FlatPair>,
}

/// The batch of all rows.
pub(crate) fn batch_of(alloc: Global, schema: &Schema, rows: &[Row]) -> Result<Batch, OutOfMemory>
    requires { CanBeWritten schema.now rows.now }
    ensures body { IfOk result (λ batch. batch.body.items ≡ body_of (buffers_from 0 schema.now.0 rows.now)) }
    ensures spans { IfOk result (λ batch. batch.spans ≡ spans_from 0 (buffers_from 0 schema.now.0 rows.now)) }
    ensures nodes { IfOk result (λ batch. batch.nodes ≡ nodes_from 0 schema.now.0 rows.now) }
{
    let mut batch = Batch {
        body: Vec::new(alloc),
        spans: List::new(alloc),
        nodes: List::new(alloc),
    };
    for (column, field) in schema.0.as_slice().iter().enumerate() {
        batch.add_column(alloc, field.kind, rows, column)?;
    }
    Ok(batch)
}

impl Batch {
    /// Adds a column: its node and its buffers.
    #[tactic(auto, unfolding(crate::specs::Columns::column_buffers))]
    fn add_column(
        &mut self,
        alloc: Global,
        kind: DataType,
        rows: &[Row],
        column: usize,
    ) -> Result<(), OutOfMemory>
        requires aligned { length self.old.body.items % 8 ≡ 0 }
        requires texts { sum_by text_size (cells column rows.now) < 2 ^ 32 }
        ensures buffers { OnOk result (Gains self.old.body.items self.new.body.items self.old.spans self.new.spans (column_buffers kind (cells column rows.now))) }
        ensures nodes { OnOk result (self.new.nodes ≡ self.old.nodes ++ node_of (cells column rows.now) ∷ []) }
    {
        let nulls = columns::null_count(rows, column);
        self.add_validity(alloc, rows, column, nulls)?;
        self.add_values(alloc, kind, rows, column)?;
        self.nodes.push(FlatPair {
            first: rows.len() as i64,
            second: nulls as i64,
        })
    }

    /// Adds the validity buffer, which has no byte where there is no null.
    #[tactic(auto, unfolding(crate::specs::Columns::validity))]
    fn add_validity(
        &mut self,
        alloc: Global,
        rows: &[Row],
        column: usize,
        nulls: usize,
    ) -> Result<(), OutOfMemory>
        requires aligned { length self.old.body.items % 8 ≡ 0 }
        requires nulls { nulls ≡ null_count (cells column rows.now) }
        ensures buffer { OnOk result (Gains self.old.body.items self.new.body.items self.old.spans self.new.spans (validity (cells column rows.now) ∷ [])) }
        ensures nodes { self.new.nodes ≡ self.old.nodes }
    {
        let start = self.body.len();
        if nulls > 0 {
            let bits = columns::validity_bits(alloc, rows, column)?;
            bitmap::write_bitmap(&mut self.body, bits.as_slice())?;
        }
        self.end_buffer(start)
    }

    /// Adds the buffers of the values.
    fn add_values(
        &mut self,
        alloc: Global,
        kind: DataType,
        rows: &[Row],
        column: usize,
    ) -> Result<(), OutOfMemory>
        requires aligned { length self.old.body.items % 8 ≡ 0 }
        requires texts { sum_by text_size (cells column rows.now) < 2 ^ 32 }
        ensures buffers { OnOk result (Gains self.old.body.items self.new.body.items self.old.spans self.new.spans (value_buffers kind (cells column rows.now))) }
        ensures nodes { self.new.nodes ≡ self.old.nodes }
    {
        match kind {
            DataType::Boolean => self.add_truths(alloc, rows, column),
            DataType::Integer => self.add_numbers_of_4(rows, column),
            DataType::Long => self.add_numbers_of_8(rows, column),
            DataType::Text => self.add_texts(rows, column),
            DataType::Date => self.add_numbers_of_4(rows, column),
        }
    }

    fn add_truths(&mut self, alloc: Global, rows: &[Row], column: usize) -> Result<(), OutOfMemory>
        requires aligned { length self.old.body.items % 8 ≡ 0 }
        ensures buffer { OnOk result (Gains self.old.body.items self.new.body.items self.old.spans self.new.spans (bitmap (map truth (cells column rows.now)) ∷ [])) }
        ensures nodes { self.new.nodes ≡ self.old.nodes }
    {
        let start = self.body.len();
        let bits = columns::truth_bits(alloc, rows, column)?;
        bitmap::write_bitmap(&mut self.body, bits.as_slice())?;
        self.end_buffer(start)
    }

    fn add_numbers_of_4(&mut self, rows: &[Row], column: usize) -> Result<(), OutOfMemory>
        requires aligned { length self.old.body.items % 8 ≡ 0 }
        ensures buffer { OnOk result (Gains self.old.body.items self.new.body.items self.old.spans self.new.spans (flat_map bytes_of_4 (cells column rows.now) ∷ [])) }
        ensures nodes { self.new.nodes ≡ self.old.nodes }
    {
        let start = self.body.len();
        columns::write_4(&mut self.body, rows, column)?;
        self.end_buffer(start)
    }

    fn add_numbers_of_8(&mut self, rows: &[Row], column: usize) -> Result<(), OutOfMemory>
        requires aligned { length self.old.body.items % 8 ≡ 0 }
        ensures buffer { OnOk result (Gains self.old.body.items self.new.body.items self.old.spans self.new.spans (flat_map bytes_of_8 (cells column rows.now) ∷ [])) }
        ensures nodes { self.new.nodes ≡ self.old.nodes }
    {
        let start = self.body.len();
        columns::write_8(&mut self.body, rows, column)?;
        self.end_buffer(start)
    }

    /// Adds the offsets and the bytes of texts.
    fn add_texts(&mut self, rows: &[Row], column: usize) -> Result<(), OutOfMemory>
        requires aligned { length self.old.body.items % 8 ≡ 0 }
        requires texts { sum_by text_size (cells column rows.now) < 2 ^ 32 }
        ensures buffers { OnOk result (Gains self.old.body.items self.new.body.items self.old.spans self.new.spans (offsets 0 (cells column rows.now) ∷ flat_map text_of (cells column rows.now) ∷ [])) }
        ensures nodes { self.new.nodes ≡ self.old.nodes }
    {
        let start = self.body.len();
        columns::write_offsets(&mut self.body, rows, column)?;
        self.end_buffer(start)?;
        let start = self.body.len();
        columns::write_texts(&mut self.body, rows, column)?;
        self.end_buffer(start)
    }

    /// Ends the buffer that began at `start`: notes where it stands, and fills the body up to a multiple of 8.
    fn end_buffer(&mut self, start: usize) -> Result<(), OutOfMemory>
        requires { start ≤ length self.old.body.items }
        ensures body { OnOk result (self.new.body.items ≡ self.old.body.items ++ zeros (next_multiple_of (length self.old.body.items) 8 - length self.old.body.items)) }
        ensures spans { OnOk result (self.new.spans ≡ self.old.spans ++ record { first = pos start; second = pos (length self.old.body.items - start) } ∷ []) }
        ensures nodes { self.new.nodes ≡ self.old.nodes }
    {
        let end = self.body.len();
        self.spans.push(FlatPair {
            first: start as i64,
            second: (end - start) as i64,
        })?;
        self.body.resize(end.next_multiple_of(8), 0)
    }
}
