ghost use Rattle.std.specs.Prelude.{◌≡◌, IfOk, map};
ghost use Rattle.cn_types.specs.Fit.{HasDateInRange};
ghost use Rattle.plan_model.specs.Comparisons.{member_of};
ghost use Rattle.plan_model.specs.Functions.{of_first};
ghost use Rattle.plan_model.specs.Texts.{concat};
ghost use Rattle.expr_eval.specs.Operands.{operand_value};

use crate::comparisons::{Test, tested};
use crate::operand::Operand;
use cn_base::{OutOfMemory, Text};
use cn_types::Value;
use std::alloc::Global;

/// `in`: the first value is equal to one of the others, by `or` over `=`.
pub(crate) fn member(operands: &[Operand<'_>]) -> Value
    ensures value { result ≡ of_first member_of (map operand_value operands.now) }
    ensures dated { HasDateInRange result }
{
    match operands.split_first() {
        Some((sought, others)) => member_among(sought.value(), others),
        None => Value::Null,
    }
}

fn member_among(sought: &Value, others: &[Operand<'_>]) -> Value
    ensures value { result ≡ member_of sought.now (map operand_value others.now) }
    ensures dated { HasDateInRange result }
{
    let mut unknown = false;
    for other in others {
        match tested(Test::Equal, sought, other.value()) {
            Value::Boolean(true) => return Value::Boolean(true),
            Value::Boolean(false) => {}
            _ => unknown = true,
        }
    }
    if unknown {
        Value::Null
    } else {
        Value::Boolean(false)
    }
}

/// `concat`: null where one is null.
pub(crate) fn joined_texts(alloc: Global, operands: &[Operand<'_>]) -> Result<Value, OutOfMemory>
    ensures value { IfOk result (λ v. v ≡ concat (map operand_value operands.now)) }
    ensures dated { IfOk result HasDateInRange }
{
    let mut joined = Text::new(alloc);
    for operand in operands {
        match operand.value() {
            Value::Text(text) => joined.append(text.as_str())?,
            _ => return Ok(Value::Null),
        }
    }
    Ok(Value::Text(joined))
}
