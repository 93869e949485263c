ghost use Rattle.std.specs.Prelude.{◌≡◌, ◌++◌, OnOk, option_map};
ghost use Rattle.proto_fields.specs.Sizes.{size_of};
ghost use Rattle.proto_fields.specs.Spelling.{spell, optional_payload_fields};
ghost use Rattle.expression_messages.specs.Spelled.{expr_fields};
ghost use Rattle.expression_relations.specs.Spelled as spelled;

use crate::Join;
use cn_base::OutOfMemory;
use expression_messages::{Expr, expr_size, put_expr, put_message_head, put_texts, texts_size};
use proto_fields::{MessageWriter, int_size, message_size};

/// Puts the condition of a join before what stands, where it is present.
#[tactic(auto, using(expression_messages::proofs::Written::spell_nil))]
fn put_condition(out: &mut MessageWriter, condition: &Option<Expr>) -> Result<(), OutOfMemory>
    ensures { OnOk result (out.new ≡ spell (optional_payload_fields 3
        (option_map (λ condition. spell (expr_fields condition)) condition.now)) ++ out.old) }
{
    match condition {
        Some(present) => {
            let end = out.len();
            put_expr(out, present)?;
            put_message_head(out, 3, end)
        }
        None => Ok(()),
    }
}

/// Puts the join's fields besides its inputs before what stands. Where memory runs out, nothing is promised of what stands then.
#[tactic(auto, using(expression_messages::proofs::Written::stand_three))]
pub fn put_join_rest<R>(out: &mut MessageWriter, it: &Join<R>) -> Result<(), OutOfMemory>
    ensures { OnOk result (out.new ≡ spell (spelled.join_rest it.now) ++ out.old) }
{
    put_texts(out, 5, it.using_columns.as_slice())?;
    out.put_int32(4, it.join_type)?;
    put_condition(out, &it.join_condition)
}

/// How many bytes the condition of a join takes: none where it is absent, 2^64 - 1 where it is above that.
#[tactic(auto, using(expression_messages::proofs::Measured::size_of_nil))]
fn condition_size(condition: &Option<Expr>) -> u64
    ensures { result ≡ size_of (optional_payload_fields 3
        (option_map (λ condition. spell (expr_fields condition)) condition.now)) }
{
    match condition {
        Some(present) => message_size(3, expr_size(present)),
        None => 0,
    }
}

/// How many bytes the join's fields besides its inputs take; 2^64 - 1 where it is above that. It takes no memory.
#[tactic(auto, using(expression_messages::proofs::Measured::sized_three))]
pub fn join_rest_size<R>(it: &Join<R>) -> u64
    ensures { result ≡ size_of (spelled.join_rest it.now) }
{
    let condition = condition_size(&it.join_condition);
    let join_type = int_size(4, i64::from(it.join_type));
    let columns = texts_size(5, it.using_columns.as_slice());
    condition.saturating_add(join_type).saturating_add(columns)
}
