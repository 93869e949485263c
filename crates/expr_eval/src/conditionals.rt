ghost use Rattle.std.specs.Prelude.{◌≡◌};
ghost use Rattle.cn_types.specs.Fit.{HasDateInRange};
ghost use Rattle.plan_model.specs.Conditionals.{widened};
ghost use Rattle.expr_eval.specs.Operands.{operand_value};

use crate::operand::Operand;
use cn_types::{DataType, Value};

/// The value in a type that holds it: an integer is a long where the type is long.
pub(crate) fn widened_operand<'a>(found: Operand<'a>, kind: DataType) -> Operand<'a>
    requires { HasDateInRange (operand_value found) }
    ensures value { operand_value result ≡ widened kind (operand_value found.entry) }
    ensures dated { HasDateInRange (operand_value result) }
{
    match kind {
        DataType::Long => long_operand(found),
        DataType::Boolean => found,
        DataType::Integer => found,
        DataType::Text => found,
        DataType::Date => found,
    }
}

fn long_operand<'a>(found: Operand<'a>) -> Operand<'a>
    requires { HasDateInRange (operand_value found) }
    ensures value { operand_value result ≡ widened DataType.Long (operand_value found.entry) }
    ensures dated { HasDateInRange (operand_value result) }
{
    if let Value::Integer(number) = found.value() {
        return Operand::Made(Value::Long(i64::from(*number)));
    }
    found
}
