ghost use Rattle.std.specs.Prelude.{◌≡◌, ◌+◌, [], ◌∷◌, IfOk};
ghost use Rattle.plan_model.specs.declared.expression.TypedExpr.TheVariants as typed;
ghost use Rattle.resolve_joins.specs.Keys as rules;

use crate::keys::KeyPair;
use cn_base::{List, OutOfMemory};
use cn_types::DataType;
use plan_model::{Function, TypedExpr};
use std::alloc::Global;

/// That each key is the same on both sides; none of no keys.
#[tactic(auto, using(crate::proofs::Backwards::back_steps))]
pub(crate) fn all_equal(
    alloc: Global,
    width: u32,
    keys: &[KeyPair],
) -> Result<Option<TypedExpr>, OutOfMemory>
    ensures { IfOk result (λ test. test ≡ rules.all_equal width keys.now) }
{
    let mut test = None;
    for index in (0..keys.len()).rev() {
        test = Some(with_key(alloc, width, &keys[index], test)?);
    }
    Ok(test)
}

fn with_key(
    alloc: Global,
    width: u32,
    key: &KeyPair,
    rest: Option<TypedExpr>,
) -> Result<TypedExpr, OutOfMemory>
    ensures { IfOk result (λ test. test ≡ rules.both (rules.are_equal width key.now) rest) }
{
    let test = key_call(alloc, Function::EqualTo, width, key, DataType::Boolean)?;
    match rest {
        Some(rest) => pair_call(alloc, Function::And, test, rest, DataType::Boolean),
        None => Ok(test),
    }
}

/// The call of a function of a key's two values, the left one first.
pub(crate) fn key_call(
    alloc: Global,
    function: Function,
    width: u32,
    key: &KeyPair,
    kind: DataType,
) -> Result<TypedExpr, OutOfMemory>
    ensures { IfOk result (λ call. call ≡ typed.Call function (rules.left_value key.now ∷ rules.right_value width key.now ∷ []) kind) }
{
    let left = left_value(key);
    let right = right_value(width, key)?;
    pair_call(alloc, function, left, right, kind)
}

fn left_value(key: &KeyPair) -> TypedExpr
    ensures { result ≡ rules.left_value key.now }
{
    TypedExpr::Column {
        place: key.left,
        kind: key.left_kind,
    }
}

fn right_value(width: u32, key: &KeyPair) -> Result<TypedExpr, OutOfMemory>
    ensures { IfOk result (λ value. value ≡ rules.right_value width key.now) }
{
    let place = right_place(width, key)?;
    Ok(TypedExpr::Column {
        place,
        kind: key.right_kind,
    })
}

/// The place of a key's right column behind the left's columns, which are so many. One from 2^32 on is answered as want of memory.
pub(crate) fn right_place(width: u32, key: &KeyPair) -> Result<u32, OutOfMemory>
    ensures { IfOk result (λ place. place ≡ width + key.now.right) }
{
    width.checked_add(key.right).ok_or(OutOfMemory)
}

fn pair_call(
    alloc: Global,
    function: Function,
    first: TypedExpr,
    second: TypedExpr,
    kind: DataType,
) -> Result<TypedExpr, OutOfMemory>
    ensures { IfOk result (λ call. call ≡ typed.Call function (first ∷ second ∷ []) kind) }
{
    let mut arguments = List::new(alloc);
    arguments.push(first)?;
    arguments.push(second)?;
    Ok(TypedExpr::Call {
        function,
        arguments,
        kind,
    })
}
