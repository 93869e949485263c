ghost use Rattle.std.specs.Prelude.{◌≡◌, ◌++◌, OnOk};
ghost use Rattle.proto_fields.specs.Sizes.{size_of};
ghost use Rattle.proto_fields.specs.Spelling.{spell};
ghost use Rattle.expression_relations.specs.Spelled as spelled;

use crate::Project;
use cn_base::OutOfMemory;
use expression_messages::{exprs_size, put_exprs};
use proto_fields::MessageWriter;

/// Puts the project's fields besides its input before what stands. Where memory runs out, nothing is promised of what stands then.
pub fn put_project_rest<R>(out: &mut MessageWriter, it: &Project<R>) -> Result<(), OutOfMemory>
    ensures { OnOk result (out.new ≡ spell (spelled.project_rest it.now) ++ out.old) }
{
    put_exprs(out, 3, it.expressions.as_slice())
}

/// How many bytes the project's fields besides its input take; 2^64 - 1 where it is above that. It takes no memory.
pub fn project_rest_size<R>(it: &Project<R>) -> u64
    ensures { result ≡ size_of (spelled.project_rest it.now) }
{
    exprs_size(3, it.expressions.as_slice())
}
