ghost use Rattle.std.specs.Prelude.{◌≡◌, ◌++◌, OnOk};
ghost use Rattle.proto_fields.specs.Sizes.{size_of};
ghost use Rattle.proto_fields.specs.Spelling.{spell};
ghost use Rattle.expression_relations.specs.Spelled as spelled;

use crate::DropColumns;
use cn_base::OutOfMemory;
use expression_messages::{exprs_size, put_exprs, put_texts, texts_size};
use proto_fields::MessageWriter;

/// Puts the drop's fields besides its input before what stands. Where memory runs out, nothing is promised of what stands then.
#[tactic(auto, using(expression_messages::proofs::Written::stand_two))]
pub fn put_drop_columns_rest<R>(
    out: &mut MessageWriter,
    it: &DropColumns<R>,
) -> Result<(), OutOfMemory>
    ensures { OnOk result (out.new ≡ spell (spelled.drop_columns_rest it.now) ++ out.old) }
{
    put_texts(out, 3, it.column_names.as_slice())?;
    put_exprs(out, 2, it.columns.as_slice())
}

/// How many bytes the drop's fields besides its input take; 2^64 - 1 where it is above that. It takes no memory.
#[tactic(auto, using(expression_messages::proofs::Measured::sized_two))]
pub fn drop_columns_rest_size<R>(it: &DropColumns<R>) -> u64
    ensures { result ≡ size_of (spelled.drop_columns_rest it.now) }
{
    let columns = exprs_size(2, it.columns.as_slice());
    columns.saturating_add(texts_size(3, it.column_names.as_slice()))
}
