use crate::{function_named, takes, typed_call};
use cn_base::OutOfMemory;
use cn_types::DataType;
use plan_model::TypedExpr;
use resolve_names::ResolveStop;
use std::alloc::Global;
use std::test::Fail;

/// A function's name, its arguments by their types (b, i, k, v and d for boolean, integer, long, text and date; n for a null without a
/// type), and the type of the call or its error.
static CALLS: [(&str, &str, &str); 20] = [
    ("+", "ki", "Long"),
    ("+", "kv", "DatatypeMismatch +"),
    ("+", "nv", "DatatypeMismatch null"),
    ("+", "vn", "DatatypeMismatch +"),
    ("DIV", "ii", "Long"),
    ("abs", "ki", "count"),
    ("nofn", "k", "no function"),
    ("==", "kd", "DatatypeMismatch =="),
    ("<=>", "nv", "Boolean"),
    ("=", "nn", "DatatypeMismatch null"),
    ("coalesce", "nk", "Long"),
    ("coalesce", "n", "DatatypeMismatch null"),
    ("when", "bni", "Integer"),
    ("when", "ki", "DatatypeMismatch when"),
    ("when", "biv", "DatatypeMismatch when"),
    ("in", "iin", "Boolean"),
    ("concat", "vn", "DatatypeMismatch null"),
    ("date_add", "di", "Date"),
    ("date_sub", "dk", "DatatypeMismatch date_sub"),
    ("AND", "nb", "DatatypeMismatch null"),
];

fn kind_of_letter(letter: char) -> Option<DataType> {
    match letter {
        'b' => Some(DataType::Boolean),
        'i' => Some(DataType::Integer),
        'k' => Some(DataType::Long),
        'v' => Some(DataType::Text),
        'd' => Some(DataType::Date),
        _ => None,
    }
}

fn arguments_of(alloc: Global, letters: &str) -> Result<Vec<Option<TypedExpr>>, OutOfMemory> {
    let mut arguments = Vec::new(alloc);
    for letter in letters.chars() {
        match kind_of_letter(letter) {
            Some(kind) => arguments.push(Some(TypedExpr::Column { place: 0, kind }))?,
            None => arguments.push(None)?,
        }
    }
    Ok(arguments)
}

fn told(alloc: Global, call: Result<TypedExpr, ResolveStop>) -> Result<String, OutOfMemory> {
    match call {
        Ok(expr) => format!(in alloc; "{:?}", crate::kind_of(&expr)),
        Err(ResolveStop::Analysis(error)) => {
            format!(in alloc; "{:?} {}", error.name, error.detail.as_str())
        }
        Err(ResolveStop::OutOfMemory) => format!(in alloc; "out of memory"),
    }
}

fn outcome(alloc: Global, name: &str, letters: &str) -> Result<String, OutOfMemory> {
    let Some(function) = function_named(name) else {
        return format!(in alloc; "no function");
    };
    if !takes(function, letters.len()) {
        return format!(in alloc; "count");
    }
    let arguments = arguments_of(alloc, letters)?;
    told(alloc, typed_call(alloc, name, function, arguments))
}

#[test]
fn calls_are_typed(rt: HostRuntime) -> Result<(), Fail> {
    for (name, letters, wanted) in &CALLS {
        assert_eq!(rt; outcome(rt.alloc(), name, letters)?.as_str(), *wanted);
    }
    Ok(())
}
