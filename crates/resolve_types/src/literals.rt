ghost use Rattle.std.specs.Prelude.{◌≡◌, ◌≢◌, IfOk, IfErr, Ok, Err};
ghost use Rattle.std.specs.Fmt.{signed_decimal};
ghost use Rattle.plan_model.specs.DateFunctions.{is_day as in_range};
ghost use Rattle.resolve_names.specs.declared.error.ErrorName.TheVariants.{BadNumber};
ghost use Rattle.resolve_names.specs.declared.error.ResolveStop.TheVariants.{Analysis, OutOfMemory as no_memory};
ghost use Rattle.resolve_names.specs.Refusals.{refusal};
ghost use Rattle.resolve_types.specs.Leaves as leaves;

use cn_base::{Copied, Text};
use cn_types::{DataType, Value};
use expression_messages::{Literal, TypeMessage};
use plan_model::TypedExpr;
use resolve_names::{ErrorName, ResolveStop, analysis_stop};
use std::alloc::Global;

/// 0001-01-01 and 9999-12-31 (ISO 8601), in days from 1970-01-01.
const FIRST_DAY: i32 = -719162;

const LAST_DAY: i32 = 2932896;

/// A literal with its type; none for a null that has no type yet. Errors: DatatypeMismatch `null` for a null of a type that no column
/// has, BadNumber for a date outside 0001-01-01 to 9999-12-31, Unsupported for a literal without a member of the profile.
pub fn typed_literal(alloc: Global, literal: &Literal) -> Result<Option<TypedExpr>, ResolveStop>
    ensures ok { IfOk result (λ typing. leaves.typed_literal literal.now ≡ Ok typing) }
    ensures refused { IfErr result (λ e. e ≢ no_memory → leaves.typed_literal literal.now ≡ Err e) }
{
    match literal {
        Literal::Null(kind) => typed_null(alloc, kind),
        Literal::Boolean(value) => Ok(constant(Value::Boolean(*value), DataType::Boolean)),
        Literal::Integer(value) => Ok(constant(Value::Integer(*value), DataType::Integer)),
        Literal::Long(value) => Ok(constant(Value::Long(*value), DataType::Long)),
        Literal::String(text) => typed_text(alloc, text),
        Literal::Date(days) => typed_date(alloc, *days),
        Literal::Absent => Err(analysis_stop(alloc, ErrorName::Unsupported, "expression 1")),
    }
}

fn constant(value: Value, kind: DataType) -> Option<TypedExpr>
    ensures { result ≡ leaves.value_of_kind value kind }
{
    Some(TypedExpr::Literal { value, kind })
}

fn typed_text(alloc: Global, text: &Text) -> Result<Option<TypedExpr>, ResolveStop>
    ensures ok { IfOk result (λ typing. leaves.typed_literal (Literal.String text.now) ≡ Ok typing) }
    ensures refused { IfErr result (λ e. e ≡ no_memory) }
{
    let text = text.copy(alloc)?;
    Ok(constant(Value::Text(text), DataType::Text))
}

fn typed_null(alloc: Global, kind: &TypeMessage) -> Result<Option<TypedExpr>, ResolveStop>
    ensures ok { IfOk result (λ typing. leaves.typed_null (leaves.says_no_type kind.now) (leaves.kind_of_type kind.now) ≡ Ok typing) }
    ensures refused { IfErr result (λ e. e ≢ no_memory → leaves.typed_null (leaves.says_no_type kind.now) (leaves.kind_of_type kind.now) ≡ Err e) }
{
    if says_no_type(kind) {
        return Ok(None);
    }
    match kind_of_type(kind) {
        Some(kind) => Ok(constant(Value::Null, kind)),
        None => Err(analysis_stop(alloc, ErrorName::DatatypeMismatch, "null")),
    }
}

fn typed_date(alloc: Global, days: i32) -> Result<Option<TypedExpr>, ResolveStop>
    ensures ok { IfOk result (λ typing. leaves.typed_date days ≡ Ok typing) }
    ensures refused { IfErr result (λ e. e ≢ no_memory → leaves.typed_date days ≡ Err e) }
{
    if is_day(days) {
        Ok(constant(Value::Date(days), DataType::Date))
    } else {
        Err(bad_number(alloc, days))
    }
}

fn is_day(days: i32) -> bool
    ensures { result ≡ in_range days }
{
    if days < FIRST_DAY {
        return false;
    }
    days <= LAST_DAY
}

fn bad_number(alloc: Global, number: i32) -> ResolveStop
    ensures { result ≢ no_memory → result ≡ Analysis (refusal BadNumber (signed_decimal number)) }
{
    match number.to_string(alloc) {
        Ok(text) => analysis_stop(alloc, ErrorName::BadNumber, text.as_str()),
        Err(_) => ResolveStop::OutOfMemory,
    }
}

/// The column type that a message says; none where no column has it. It takes no memory.
#[tactic(auto, unfolding(crate::specs::Leaves::kind_of_type), using(crate::proofs::TypeForms::forms))]
pub fn kind_of_type(kind: &TypeMessage) -> Option<DataType>
    ensures { result ≡ leaves.kind_of_type kind.now }
{
    match kind {
        TypeMessage::Boolean => Some(DataType::Boolean),
        TypeMessage::Integer => Some(DataType::Integer),
        TypeMessage::Long => Some(DataType::Long),
        TypeMessage::String => Some(DataType::Text),
        TypeMessage::Date => Some(DataType::Date),
        TypeMessage::Null
        | TypeMessage::Byte
        | TypeMessage::Short
        | TypeMessage::Struct(_)
        | TypeMessage::Other(_) => None,
    }
}

#[tactic(auto, unfolding(crate::specs::Leaves::says_no_type), using(crate::proofs::TypeForms::forms))]
fn says_no_type(kind: &TypeMessage) -> bool
    ensures { result ≡ leaves.says_no_type kind.now }
{
    match kind {
        TypeMessage::Null => true,
        TypeMessage::Boolean
        | TypeMessage::Byte
        | TypeMessage::Short
        | TypeMessage::Integer
        | TypeMessage::Long
        | TypeMessage::String
        | TypeMessage::Date
        | TypeMessage::Struct(_)
        | TypeMessage::Other(_) => false,
    }
}
