ghost use Rattle.std.specs.Prelude.{◌≡◌, ◌++◌, IfOk, OnOk};
ghost use Rattle.proto_fields.specs.Sizes.{size_of};
ghost use Rattle.proto_fields.specs.Spelling.{spell};
ghost use Rattle.proto_fields.specs.Views.{seen};
ghost use Rattle.plain_relations.specs.Plain as plain;
ghost use Rattle.plain_relations.specs.Spelled as spelled;

use cn_base::{Boxed, Copied, OutOfMemory};
use proto_fields::{
    MessageWriter, Record, int_size, int32_field, optional_bool, optional_bool_size,
};
use std::alloc::Global;

/// A set operation on the rows of two relations (`relations.proto`, SetOperation).
#[derive(Debug, Drop)]
pub struct SetOperation<R> {
    /// `Other(0)` where no relation is there.
    pub left_input: Boxed<R>,
    /// `Other(0)` where no relation is there.
    pub right_input: Boxed<R>,
    /// 1 intersect, 2 union, 3 except.
    pub set_op_type: i32,
    pub is_all: Option<bool>,
    pub by_name: Option<bool>,
    pub allow_missing_columns: Option<bool>,
}

impl<R: Copied + Drop> Copied for SetOperation<R> {
    fn copy(&self, alloc: Global) -> Result<SetOperation<R>, OutOfMemory> {
        let left = self.left_input.get().copy(alloc)?;
        let right = self.right_input.get().copy(alloc)?;
        set_operation_like(alloc, self, left, right)
    }
}

/// The operation on these inputs that a message's records hold.
pub fn set_operation_over<R: Drop>(
    alloc: Global,
    items: &[Record],
    left: R,
    right: R,
) -> Result<SetOperation<R>, OutOfMemory>
    ensures { IfOk result (λ it. it ≡ plain.set_operation_of left right (seen items.now)) }
{
    Ok(SetOperation {
        left_input: Boxed::new(alloc, left)?,
        right_input: Boxed::new(alloc, right)?,
        set_op_type: int32_field(items, 3),
        is_all: optional_bool(items, 4),
        by_name: optional_bool(items, 5),
        allow_missing_columns: optional_bool(items, 6),
    })
}

/// The same operation on other inputs.
pub fn set_operation_like<R, S: Drop>(
    alloc: Global,
    it: &SetOperation<R>,
    left: S,
    right: S,
) -> Result<SetOperation<S>, OutOfMemory>
    ensures { IfOk result (λ copied. copied ≡ record {
      left_input = left;
      right_input = right;
      set_op_type = it.now.set_op_type;
      is_all = it.now.is_all;
      by_name = it.now.by_name;
      allow_missing_columns = it.now.allow_missing_columns;
    }) }
{
    Ok(SetOperation {
        left_input: Boxed::new(alloc, left)?,
        right_input: Boxed::new(alloc, right)?,
        set_op_type: it.set_op_type,
        is_all: it.is_all,
        by_name: it.by_name,
        allow_missing_columns: it.allow_missing_columns,
    })
}

/// Puts the operation's fields besides its inputs before what stands. Where memory runs out, nothing is promised of what stands then.
#[tactic(auto, using(field_groups::proofs::Sequences::stand_four))]
pub fn put_set_operation_rest<R>(
    out: &mut MessageWriter,
    it: &SetOperation<R>,
) -> Result<(), OutOfMemory>
    ensures { OnOk result (out.new ≡ spell (spelled.set_operation_rest it.now) ++ out.old) }
{
    out.put_optional_bool(6, it.allow_missing_columns)?;
    out.put_optional_bool(5, it.by_name)?;
    out.put_optional_bool(4, it.is_all)?;
    out.put_int32(3, it.set_op_type)
}

/// How many bytes the operation's fields besides its inputs take. It takes no memory.
#[tactic(auto, using(field_groups::proofs::Sequences::sized_four))]
pub fn set_operation_rest_size<R>(it: &SetOperation<R>) -> u64
    ensures { result ≡ size_of (spelled.set_operation_rest it.now) }
{
    let kind = int_size(3, i64::from(it.set_op_type));
    let is_all = optional_bool_size(4, it.is_all);
    let by_name = optional_bool_size(5, it.by_name);
    let missing = optional_bool_size(6, it.allow_missing_columns);
    kind.saturating_add(is_all)
        .saturating_add(by_name)
        .saturating_add(missing)
}
