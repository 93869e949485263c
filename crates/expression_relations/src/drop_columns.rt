ghost use Rattle.std.specs.Prelude.{◌≡◌, IfOk};
ghost use Rattle.proto_fields.specs.Views.{seen};
ghost use Rattle.expression_messages.specs.Depths.{told};
ghost use Rattle.expression_relations.specs.Depths as depths;
ghost use Rattle.expression_relations.specs.Known as known;
ghost use Rattle.expression_relations.specs.Reading as reading;

use cn_base::{Boxed, Copied, List, OutOfMemory, Text};
use expression_messages::{Expr, are_known, deepest, exprs_from};
use proto_fields::{Record, texts};
use std::alloc::Global;

/// The rows without some columns (`relations.proto`, Drop).
#[derive(Debug, Drop)]
pub struct DropColumns<R> {
    /// `Other(0)` where no relation is there.
    pub input: Boxed<R>,
    pub columns: List<Expr>,
    pub column_names: List<Text>,
}

impl<R: Copied + Drop> Copied for DropColumns<R> {
    fn copy(&self, alloc: Global) -> Result<DropColumns<R>, OutOfMemory> {
        let input = self.input.get().copy(alloc)?;
        drop_columns_like(alloc, self, input)
    }
}

/// The drop over this input that a message's records hold, with so many levels of nesting for each of its columns.
pub fn drop_columns_over<R: Drop>(
    alloc: Global,
    items: &[Record],
    input: R,
    level: u32,
) -> Result<DropColumns<R>, OutOfMemory>
    ensures { IfOk result (λ it. it ≡ reading.drop_columns_of level input (seen items.now)) }
{
    let input = Boxed::new(alloc, input)?;
    let column_names = texts(alloc, items, 3)?;
    let columns = exprs_from(alloc, items, 2, level)?;
    Ok(DropColumns {
        input,
        columns,
        column_names,
    })
}

/// The same drop over another input.
pub fn drop_columns_like<R, S: Drop>(
    alloc: Global,
    it: &DropColumns<R>,
    input: S,
) -> Result<DropColumns<S>, OutOfMemory>
    ensures { IfOk result (λ copied. copied ≡ record {
      input = input;
      columns = it.now.columns;
      column_names = it.now.column_names;
    }) }
{
    let input = Boxed::new(alloc, input)?;
    let column_names = it.column_names.copy(alloc)?;
    let columns = it.columns.copy(alloc)?;
    Ok(DropColumns {
        input,
        columns,
        column_names,
    })
}

/// How many messages are nested in the drop's fields besides its input: 0 without columns, 2^32 - 1 where there are more. It takes no memory.
pub fn drop_columns_rest_depth<R>(it: &DropColumns<R>) -> u32
    ensures { result ≡ told (depths.drop_columns_depth it.now) }
{
    deepest(it.columns.as_slice())
}

/// Whether the drop has a spelling where its input has one: none of its columns is outside the profile. It takes no memory.
pub fn is_known_drop_columns<R>(it: &DropColumns<R>) -> bool
    ensures { result ≡ known.is_known_drop_columns it.now }
{
    are_known(it.columns.as_slice())
}
