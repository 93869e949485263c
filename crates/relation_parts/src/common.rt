ghost use Rattle.std.specs.Prelude.{◌≡◌, ◌++◌, OnOk};
ghost use Rattle.proto_fields.specs.Sizes.{size_of};
ghost use Rattle.proto_fields.specs.Spelling.{spell};
ghost use Rattle.proto_fields.specs.Views.{seen};
ghost use Rattle.relation_parts.specs.Parts as parts;
ghost use Rattle.relation_parts.specs.Spelled as spelled;

use cn_base::{Copied, OutOfMemory};
use proto_fields::{MessageWriter, Record, optional_int64, optional_int64_size};
use std::alloc::Global;

/// What every relation may have (`relations.proto`, RelationCommon).
#[derive(Clone, Copy, Debug, PartialEq, Eq)]
pub struct RelationCommon {
    /// The number by which an expression names the relation.
    pub plan_id: Option<i64>,
}

impl Copied for RelationCommon {
    fn copy(&self, _alloc: Global) -> Result<RelationCommon, OutOfMemory> {
        Ok(*self)
    }
}

/// What every relation may have, as it is read of a message's records (`relations.proto`, RelationCommon).
pub fn common_from(items: &[Record]) -> RelationCommon
    ensures { result ≡ parts.common_of (seen items.now) }
{
    RelationCommon {
        plan_id: optional_int64(items, 2),
    }
}

/// Puts the message before what stands. Where memory runs out, nothing is promised of what stands then.
pub fn put_common(out: &mut MessageWriter, common: &RelationCommon) -> Result<(), OutOfMemory>
    ensures { OnOk result (out.new ≡ spell (spelled.common_fields common.now) ++ out.old) }
{
    out.put_optional_int64(2, common.plan_id)
}

/// How many bytes the message takes. It takes no memory.
pub fn common_size(common: &RelationCommon) -> u64
    ensures { result ≡ size_of (spelled.common_fields common.now) }
{
    optional_int64_size(2, common.plan_id)
}
