ghost use Rattle.std.specs.Prelude.{◌≡◌, ◌++◌, OnOk};
ghost use Rattle.proto_fields.specs.Sizes.{size_of};
ghost use Rattle.proto_fields.specs.Spelling.{spell};
ghost use Rattle.expression_relations.specs.Spelled as spelled;

use crate::Filter;
use cn_base::OutOfMemory;
use expression_messages::{expr_size, put_expr, put_message_head};
use proto_fields::{MessageWriter, message_size};

/// Puts the filter's fields besides its input before what stands. Where memory runs out, nothing is promised of what stands then.
pub fn put_filter_rest<R>(out: &mut MessageWriter, it: &Filter<R>) -> Result<(), OutOfMemory>
    ensures { OnOk result (out.new ≡ spell (spelled.filter_rest it.now) ++ out.old) }
{
    let end = out.len();
    put_expr(out, &it.condition)?;
    put_message_head(out, 2, end)
}

/// How many bytes the filter's fields besides its input take; 2^64 - 1 where it is above that. It takes no memory.
pub fn filter_rest_size<R>(it: &Filter<R>) -> u64
    ensures { result ≡ size_of (spelled.filter_rest it.now) }
{
    message_size(2, expr_size(&it.condition))
}
