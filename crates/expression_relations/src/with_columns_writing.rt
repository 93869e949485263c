ghost use Rattle.std.specs.Prelude.{◌≡◌, ◌++◌, OnOk};
ghost use Rattle.proto_fields.specs.Sizes.{size_of};
ghost use Rattle.proto_fields.specs.Spelling.{spell};
ghost use Rattle.expression_relations.specs.Spelled as spelled;

use crate::WithColumns;
use crate::aliases::{aliases_size, put_aliases};
use cn_base::OutOfMemory;
use proto_fields::MessageWriter;

/// Puts the message's fields besides its input before what stands. Where memory runs out, nothing is promised of what stands then.
pub fn put_with_columns_rest<R>(
    out: &mut MessageWriter,
    it: &WithColumns<R>,
) -> Result<(), OutOfMemory>
    ensures { OnOk result (out.new ≡ spell (spelled.with_columns_rest it.now) ++ out.old) }
{
    put_aliases(out, 2, it.aliases.as_slice())
}

/// How many bytes the message's fields besides its input take; 2^64 - 1 where it is above that. It takes no memory.
pub fn with_columns_rest_size<R>(it: &WithColumns<R>) -> u64
    ensures { result ≡ size_of (spelled.with_columns_rest it.now) }
{
    aliases_size(2, it.aliases.as_slice())
}
