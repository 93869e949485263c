ghost use Rattle.std.specs.Prelude.{◌≡◌, ◌≤◌, ◌++◌, OnOk};
ghost use Rattle.proto_fields.specs.Spelling.{spell};
ghost use Rattle.expression_messages.specs.Messages.{messages_fields};
ghost use Rattle.expression_messages.specs.Spelled as spelled;

use crate::literal_writing::{put_attribute, put_literal, put_star, put_target};
use crate::message::put_message_head;
use crate::texts::put_texts;
use crate::{Alias, Cast, Expr, SortOrder};
use cn_base::OutOfMemory;
use proto_fields::MessageWriter;

/// Puts the expression's message before what stands. An expression outside the profile has no fields. Where memory runs out, nothing is
/// promised of what stands then.
#[cycle(put_expressions)]
#[tactic(auto, using(crate::proofs::ExprCases::expr_spellings, crate::proofs::Written::spell_nil))]
pub fn put_expr(out: &mut MessageWriter, expr: &Expr) -> Result<(), OutOfMemory>
    ensures { OnOk result (out.new ≡ spell (spelled.expr_fields expr.now) ++ out.old) }
{
    let end = out.len();
    match expr {
        Expr::Literal(literal) => {
            put_literal(out, literal)?;
            put_message_head(out, 1, end)
        }
        Expr::UnresolvedAttribute(attribute) => {
            put_attribute(out, attribute)?;
            put_message_head(out, 2, end)
        }
        Expr::UnresolvedFunction(function) => {
            out.put_bool(3, function.is_distinct)?;
            put_exprs(out, 2, function.arguments.as_slice())?;
            out.put_text(1, function.function_name.as_str())?;
            put_message_head(out, 3, end)
        }
        Expr::UnresolvedStar(star) => {
            put_star(out, star)?;
            put_message_head(out, 5, end)
        }
        Expr::Alias(alias) => {
            put_alias(out, alias)?;
            put_message_head(out, 6, end)
        }
        Expr::Cast(cast) => {
            put_cast(out, cast)?;
            put_message_head(out, 7, end)
        }
        Expr::SortOrder(order) => {
            put_sort_order(out, order)?;
            put_message_head(out, 9, end)
        }
        Expr::Other(_) => Ok(()),
    }
}

/// Puts the expressions of a repeated field of this number before what stands. Where memory runs out, nothing is promised of what stands then.
#[cycle(put_expressions)]
pub fn put_exprs(out: &mut MessageWriter, number: u32, exprs: &[Expr]) -> Result<(), OutOfMemory>
    requires low { 1 ≤ number }
    requires high { number ≤ 536870911 }
    ensures { OnOk result (out.new
        ≡ spell (messages_fields spelled.expr_fields number exprs.now) ++ out.old) }
{
    for index in (0..exprs.len()).rev() {
        let end = out.len();
        put_expr(out, &exprs[index])?;
        put_message_head(out, number, end)?;
    }
    Ok(())
}

/// Puts the alias's message before what stands. Where memory runs out, nothing is promised of what stands then.
#[cycle(put_expressions)]
pub fn put_alias(out: &mut MessageWriter, alias: &Alias) -> Result<(), OutOfMemory>
    ensures { OnOk result (out.new ≡ spell (spelled.alias_fields alias.now) ++ out.old) }
{
    put_texts(out, 2, alias.name.as_slice())?;
    let end = out.len();
    put_expr(out, alias.expr.get())?;
    put_message_head(out, 1, end)
}

/// Puts the cast's message before what stands.
#[cycle(put_expressions)]
fn put_cast(out: &mut MessageWriter, cast: &Cast) -> Result<(), OutOfMemory>
    ensures { OnOk result (out.new
        ≡ spell (spelled.cast_fields spelled.expr_fields cast.now) ++ out.old) }
{
    put_target(out, &cast.target)?;
    let end = out.len();
    put_expr(out, cast.expr.get())?;
    put_message_head(out, 1, end)
}

/// Puts the sort order's message before what stands. Where memory runs out, nothing is promised of what stands then.
#[cycle(put_expressions)]
pub fn put_sort_order(out: &mut MessageWriter, order: &SortOrder) -> Result<(), OutOfMemory>
    ensures { OnOk result (out.new ≡ spell (spelled.sort_order_fields order.now) ++ out.old) }
{
    out.put_int32(3, order.null_ordering)?;
    out.put_int32(2, order.direction)?;
    let end = out.len();
    put_expr(out, order.child.get())?;
    put_message_head(out, 1, end)
}
