ghost use Rattle.std.specs.Prelude.{◌≡◌, ◌++◌, OnOk};
ghost use Rattle.proto_fields.specs.Sizes.{size_of};
ghost use Rattle.proto_fields.specs.Spelling.{spell};
ghost use Rattle.expression_relations.specs.Spelled as spelled;

use crate::Aggregate;
use cn_base::OutOfMemory;
use expression_messages::{exprs_size, put_exprs};
use proto_fields::{MessageWriter, int_size};

/// Puts the aggregate's fields besides its input before what stands. Where memory runs out, nothing is promised of what stands then.
#[tactic(auto, using(expression_messages::proofs::Written::stand_three))]
pub fn put_aggregate_rest<R>(out: &mut MessageWriter, it: &Aggregate<R>) -> Result<(), OutOfMemory>
    ensures { OnOk result (out.new ≡ spell (spelled.aggregate_rest it.now) ++ out.old) }
{
    put_exprs(out, 4, it.aggregate_expressions.as_slice())?;
    put_exprs(out, 3, it.grouping_expressions.as_slice())?;
    out.put_int32(2, it.group_type)
}

/// How many bytes the aggregate's fields besides its input take; 2^64 - 1 where it is above that. It takes no memory.
#[tactic(auto, using(expression_messages::proofs::Measured::sized_three))]
pub fn aggregate_rest_size<R>(it: &Aggregate<R>) -> u64
    ensures { result ≡ size_of (spelled.aggregate_rest it.now) }
{
    let group_type = int_size(2, i64::from(it.group_type));
    let grouping = exprs_size(3, it.grouping_expressions.as_slice());
    let aggregates = exprs_size(4, it.aggregate_expressions.as_slice());
    group_type
        .saturating_add(grouping)
        .saturating_add(aggregates)
}
