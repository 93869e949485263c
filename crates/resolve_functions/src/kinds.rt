ghost use Rattle.std.specs.Prelude.{◌≡◌, option_and_then};
ghost use Rattle.plan_model.specs.FunctionTypes as types;

use cn_types::DataType;

/// Whether two types are one.
pub(crate) fn same_kind(a: DataType, b: DataType) -> bool
    ensures { result ≡ types.same_kind a b }
{
    match a {
        DataType::Boolean => matches!(b, DataType::Boolean),
        DataType::Integer => matches!(b, DataType::Integer),
        DataType::Long => matches!(b, DataType::Long),
        DataType::Text => matches!(b, DataType::Text),
        DataType::Date => matches!(b, DataType::Date),
    }
}

/// The wider type of two numbers.
pub(crate) fn wider(a: DataType, b: DataType) -> Option<DataType>
    ensures { result ≡ types.wider a b }
{
    match a {
        DataType::Integer => wider_than_integer(b),
        DataType::Long => wider_than_long(b),
        DataType::Boolean | DataType::Text | DataType::Date => None,
    }
}

fn wider_than_integer(b: DataType) -> Option<DataType>
    ensures { result ≡ types.wider DataType.Integer b }
{
    match b {
        DataType::Integer => Some(DataType::Integer),
        DataType::Long => Some(DataType::Long),
        DataType::Boolean | DataType::Text | DataType::Date => None,
    }
}

fn wider_than_long(b: DataType) -> Option<DataType>
    ensures { result ≡ types.wider DataType.Long b }
{
    match b {
        DataType::Integer | DataType::Long => Some(DataType::Long),
        DataType::Boolean | DataType::Text | DataType::Date => None,
    }
}

/// The type that two same types have together.
pub(crate) fn common(a: DataType, b: DataType) -> Option<DataType>
    ensures { result ≡ types.common a b }
{
    match a {
        DataType::Boolean => match b {
            DataType::Boolean => Some(DataType::Boolean),
            DataType::Integer | DataType::Long | DataType::Text | DataType::Date => None,
        },
        DataType::Text => match b {
            DataType::Text => Some(DataType::Text),
            DataType::Boolean | DataType::Integer | DataType::Long | DataType::Date => None,
        },
        DataType::Date => match b {
            DataType::Date => Some(DataType::Date),
            DataType::Boolean | DataType::Integer | DataType::Long | DataType::Text => None,
        },
        DataType::Integer => wider_than_integer(b),
        DataType::Long => wider_than_long(b),
    }
}

/// The type that several same types have together; none of no type.
pub(crate) fn common_of(kinds: &[DataType]) -> Option<DataType>
    ensures { result ≡ types.common_of kinds.now }
{
    if kinds.is_empty() {
        return None;
    }
    let mut at = kinds.len() - 1;
    let mut found = Some(kinds[at]);
    while at > 0 {
        at -= 1;
        found = with_common(kinds[at], found);
    }
    found
}

fn with_common(kind: DataType, others: Option<DataType>) -> Option<DataType>
    ensures { result ≡ option_and_then (types.common kind) others }
{
    match others {
        Some(other) => common(kind, other),
        None => None,
    }
}
