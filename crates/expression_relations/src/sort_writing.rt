ghost use Rattle.std.specs.Prelude.{◌≡◌, ◌++◌, OnOk};
ghost use Rattle.proto_fields.specs.Sizes.{size_of};
ghost use Rattle.proto_fields.specs.Spelling.{spell};
ghost use Rattle.expression_relations.specs.Spelled as spelled;

use crate::Sort;
use crate::sort_orders::{put_sort_orders, sort_orders_size};
use cn_base::OutOfMemory;
use proto_fields::{MessageWriter, optional_bool_size};

/// Puts the sort's fields besides its input before what stands. Where memory runs out, nothing is promised of what stands then.
#[tactic(auto, using(expression_messages::proofs::Written::stand_two))]
pub fn put_sort_rest<R>(out: &mut MessageWriter, it: &Sort<R>) -> Result<(), OutOfMemory>
    ensures { OnOk result (out.new ≡ spell (spelled.sort_rest it.now) ++ out.old) }
{
    out.put_optional_bool(3, it.is_global)?;
    put_sort_orders(out, 2, it.order.as_slice())
}

/// How many bytes the sort's fields besides its input take; 2^64 - 1 where it is above that. It takes no memory.
#[tactic(auto, using(expression_messages::proofs::Measured::sized_two))]
pub fn sort_rest_size<R>(it: &Sort<R>) -> u64
    ensures { result ≡ size_of (spelled.sort_rest it.now) }
{
    let order = sort_orders_size(2, it.order.as_slice());
    order.saturating_add(optional_bool_size(3, it.is_global))
}
