ghost use Rattle.std.specs.Prelude.{◌≡◌};
ghost use Rattle.plan_model.specs.FunctionTypes as types;
ghost use Rattle.resolve_functions.specs.FunctionNames as names;

use crate::folding::is_name;
use cn_types::DataType;

/// The column type that a text names, where it names one. ASCII letters match in either case. It takes no memory.
#[tactic(auto, unfolding(crate::specs::FunctionNames::kind_named))]
pub fn kind_named(name: &str) -> Option<DataType>
    ensures { result ≡ names.kind_named name.now }
{
    if is_name(name, "int") {
        return Some(DataType::Integer);
    }
    if is_name(name, "integer") {
        return Some(DataType::Integer);
    }
    if is_name(name, "long") {
        return Some(DataType::Long);
    }
    if is_name(name, "bigint") {
        return Some(DataType::Long);
    }
    if is_name(name, "string") {
        return Some(DataType::Text);
    }
    if is_name(name, "boolean") {
        return Some(DataType::Boolean);
    }
    if is_name(name, "date") {
        return Some(DataType::Date);
    }
    None
}

/// Whether a value of the first type may be cast to the second.
pub fn can_cast(from: DataType, to: DataType) -> bool
    ensures { result ≡ types.can_cast from to }
{
    match from {
        DataType::Boolean => !matches!(to, DataType::Date),
        DataType::Integer => !matches!(to, DataType::Date),
        DataType::Long => !matches!(to, DataType::Date),
        DataType::Text => matches!(to, DataType::Text),
        DataType::Date => matches!(to, DataType::Text | DataType::Date),
    }
}
