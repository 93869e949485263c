ghost use Rattle.std.specs.Prelude.{◌≡◌, ◌≢◌, [], ◌∷◌, ◌++◌, map, OnOk, IfOk, IfErr, Ok, Err};
ghost use Rattle.plan_model.specs.NodeTypes as node_types;
ghost use Rattle.resolve_names.specs.declared.error.ResolveStop.TheVariants.{OutOfMemory as no_memory};
ghost use Rattle.resolve_functions.specs.Arguments as arguments;

use crate::asked::{Asked, asked_first, asked_later, meets};
use crate::call::call_kind;
use crate::kinds::common_of;
use cn_base::{List, OutOfMemory};
use cn_types::{DataType, Value};
use plan_model::{Function, TypedExpr};
use resolve_names::{ErrorName, ResolveStop, analysis_stop};
use std::alloc::Global;

/// The call of a function over these arguments, with its type. An argument without a type is a literal null without one: it takes the
/// type that the others have together, where the function asks for that. Errors tell the function by this name: DatatypeMismatch for the
/// first argument that does not fit, by the name `null` where it has no type and finds none.
#[tactic(auto, unfolding(crate::specs::Arguments::typed_call))]
pub fn typed_call(
    alloc: Global,
    name: &str,
    function: Function,
    typings: Vec<Option<TypedExpr>>,
) -> Result<TypedExpr, ResolveStop>
    ensures ok { IfOk result (λ call. arguments.typed_call name.now function typings.items ≡ Ok call) }
    ensures refused { IfErr result (λ e. e ≢ no_memory → arguments.typed_call name.now function typings.items ≡ Err e) }
{
    call_asked(
        alloc,
        name,
        function,
        asked_first(function),
        asked_later(function),
        typings,
    )
}

fn call_asked(
    alloc: Global,
    name: &str,
    function: Function,
    first: Asked,
    later: Asked,
    typings: Vec<Option<TypedExpr>>,
) -> Result<TypedExpr, ResolveStop>
    ensures ok { IfOk result (λ call. arguments.call_asked name.now function first later typings.items ≡ Ok call) }
    ensures refused { IfErr result (λ e. e ≢ no_memory → arguments.call_asked name.now function first later typings.items ≡ Err e) }
{
    match first {
        Asked::Same => same_call(alloc, name, function, typings),
        Asked::When => when_call(alloc, name, function, typings),
        Asked::AnyKind => plain_call(alloc, name, function, first, later, typings),
        Asked::Number => plain_call(alloc, name, function, first, later, typings),
        Asked::Only(_) => plain_call(alloc, name, function, first, later, typings),
    }
}

#[tactic(auto, unfolding(crate::specs::Arguments::plain_call))]
fn plain_call(
    alloc: Global,
    name: &str,
    function: Function,
    first: Asked,
    later: Asked,
    typings: Vec<Option<TypedExpr>>,
) -> Result<TypedExpr, ResolveStop>
    ensures ok { IfOk result (λ call. arguments.plain_call name.now function first later typings.items ≡ Ok call) }
    ensures refused { IfErr result (λ e. e ≢ no_memory → arguments.plain_call name.now function first later typings.items ≡ Err e) }
{
    check_each(alloc, name, first, later, typings.as_slice())?;
    let exprs = known(alloc, typings)?;
    call_of(alloc, name, function, exprs)
}

#[tactic(auto, unfolding(crate::specs::Arguments::same_call))]
fn same_call(
    alloc: Global,
    name: &str,
    function: Function,
    typings: Vec<Option<TypedExpr>>,
) -> Result<TypedExpr, ResolveStop>
    ensures ok { IfOk result (λ call. arguments.same_call name.now function typings.items ≡ Ok call) }
    ensures refused { IfErr result (λ e. e ≢ no_memory → arguments.same_call name.now function typings.items ≡ Err e) }
{
    let kinds = known_kinds(alloc, typings.as_slice())?;
    let kind = together(alloc, name, kinds.as_slice())?;
    let exprs = fill(alloc, kind, typings)?;
    call_of(alloc, name, function, exprs)
}

#[tactic(auto, unfolding(crate::specs::Arguments::when_call))]
fn when_call(
    alloc: Global,
    name: &str,
    function: Function,
    typings: Vec<Option<TypedExpr>>,
) -> Result<TypedExpr, ResolveStop>
    ensures ok { IfOk result (λ call. arguments.when_call name.now function typings.items ≡ Ok call) }
    ensures refused { IfErr result (λ e. e ≢ no_memory → arguments.when_call name.now function typings.items ≡ Err e) }
{
    check_conditions(alloc, name, typings.as_slice())?;
    let kinds = value_kinds(alloc, typings.as_slice())?;
    let kind = together(alloc, name, kinds.as_slice())?;
    let exprs = fill(alloc, kind, typings)?;
    call_of(alloc, name, function, exprs)
}

#[tactic(auto, unfolding(crate::specs::Arguments::call_of))]
fn call_of(
    alloc: Global,
    name: &str,
    function: Function,
    exprs: List<TypedExpr>,
) -> Result<TypedExpr, ResolveStop>
    ensures ok { IfOk result (λ call. arguments.call_of name.now function exprs ≡ Ok call) }
    ensures refused { IfErr result (λ e. e ≢ no_memory → arguments.call_of name.now function exprs ≡ Err e) }
{
    let kinds = kinds_of(alloc, exprs.as_slice())?;
    match call_kind(alloc, function, kinds.as_slice())? {
        Some(kind) => Ok(TypedExpr::Call {
            function,
            arguments: exprs,
            kind,
        }),
        None => Err(analysis_stop(alloc, ErrorName::DatatypeMismatch, name)),
    }
}

/// The type that the arguments with a type have together.
#[tactic(auto, unfolding(crate::specs::Arguments::together))]
fn together(alloc: Global, name: &str, kinds: &[DataType]) -> Result<DataType, ResolveStop>
    ensures ok { IfOk result (λ kind. arguments.together name.now kinds.now ≡ Ok kind) }
    ensures refused { IfErr result (λ e. e ≢ no_memory → arguments.together name.now kinds.now ≡ Err e) }
{
    if kinds.is_empty() {
        return Err(analysis_stop(alloc, ErrorName::DatatypeMismatch, "null"));
    }
    match common_of(kinds) {
        Some(kind) => Ok(kind),
        None => Err(analysis_stop(alloc, ErrorName::DatatypeMismatch, name)),
    }
}

/// Whether each argument has a type that meets what is asked of it.
fn check_each(
    alloc: Global,
    name: &str,
    first: Asked,
    later: Asked,
    typings: &[Option<TypedExpr>],
) -> Result<(), ResolveStop>
    ensures ok { IfOk result (λ met. arguments.each_meets name.now first later typings.now ≡ Ok met) }
    ensures refused { IfErr result (λ e. e ≢ no_memory → arguments.each_meets name.now first later typings.now ≡ Err e) }
{
    let mut asked = first;
    for typing in typings {
        match check_one(alloc, name, asked, typing) {
            Ok(()) => asked = later,
            Err(stop) => return Err(stop),
        }
    }
    Ok(())
}

fn check_one(
    alloc: Global,
    name: &str,
    asked: Asked,
    typing: &Option<TypedExpr>,
) -> Result<(), ResolveStop>
    ensures ok { IfOk result (λ met. arguments.one_meets name.now asked typing.now ≡ Ok met) }
    ensures refused { IfErr result (λ e. e ≢ no_memory → arguments.one_meets name.now asked typing.now ≡ Err e) }
{
    match typing {
        None => Err(analysis_stop(alloc, ErrorName::DatatypeMismatch, "null")),
        Some(expr) => check_kind(alloc, name, asked, kind_of(expr)),
    }
}

fn check_kind(alloc: Global, name: &str, asked: Asked, kind: DataType) -> Result<(), ResolveStop>
    ensures ok { IfOk result (λ met. arguments.kind_meets name.now asked kind ≡ Ok met) }
    ensures refused { IfErr result (λ e. e ≢ no_memory → arguments.kind_meets name.now asked kind ≡ Err e) }
{
    if meets(asked, kind) {
        Ok(())
    } else {
        Err(analysis_stop(alloc, ErrorName::DatatypeMismatch, name))
    }
}

/// Whether each condition has a type, and is boolean.
fn check_conditions(
    alloc: Global,
    name: &str,
    typings: &[Option<TypedExpr>],
) -> Result<(), ResolveStop>
    ensures ok { IfOk result (λ met. arguments.each_meets name.now (Asked.Only DataType.Boolean) (Asked.Only DataType.Boolean) (arguments.conditions typings.now) ≡ Ok met) }
    ensures refused { IfErr result (λ e. e ≢ no_memory → arguments.each_meets name.now (Asked.Only DataType.Boolean) (Asked.Only DataType.Boolean) (arguments.conditions typings.now) ≡ Err e) }
{
    let mut at = 0;
    while typings.len() - at > 1 {
        match check_one(alloc, name, Asked::Only(DataType::Boolean), &typings[at]) {
            Ok(()) => at += 2,
            Err(stop) => return Err(stop),
        }
    }
    Ok(())
}

/// The types of the values that have one.
fn value_kinds(alloc: Global, typings: &[Option<TypedExpr>]) -> Result<List<DataType>, OutOfMemory>
    ensures { IfOk result (λ kinds. kinds ≡ arguments.known_kinds (arguments.values typings.now)) }
{
    let mut kinds = List::new(alloc);
    let mut at = 0;
    while typings.len() - at > 1 {
        push_kind(&mut kinds, &typings[at + 1])?;
        at += 2;
    }
    if at < typings.len() {
        push_kind(&mut kinds, &typings[at])?;
    }
    Ok(kinds)
}

/// The types of the arguments that have one.
fn known_kinds(alloc: Global, typings: &[Option<TypedExpr>]) -> Result<List<DataType>, OutOfMemory>
    ensures { IfOk result (λ kinds. kinds ≡ arguments.known_kinds typings.now) }
{
    let mut kinds = List::new(alloc);
    for typing in typings {
        push_kind(&mut kinds, typing)?;
    }
    Ok(kinds)
}

fn push_kind(kinds: &mut List<DataType>, typing: &Option<TypedExpr>) -> Result<(), OutOfMemory>
    ensures { OnOk result (kinds.new ≡ kinds.old ++ arguments.known_kinds (typing.now ∷ [])) }
{
    match typing {
        Some(expr) => kinds.push(kind_of(expr)),
        None => Ok(()),
    }
}

/// The arguments that have a type.
#[tactic(auto, using(crate::proofs::Each::known_push))]
fn known(alloc: Global, typings: Vec<Option<TypedExpr>>) -> Result<List<TypedExpr>, OutOfMemory>
    ensures { IfOk result (λ exprs. exprs ≡ arguments.known typings.items) }
{
    let mut exprs = List::new(alloc);
    for typing in typings {
        push_known(&mut exprs, typing)?;
    }
    Ok(exprs)
}

fn push_known(exprs: &mut List<TypedExpr>, typing: Option<TypedExpr>) -> Result<(), OutOfMemory>
    ensures { OnOk result (exprs.new ≡ exprs.old ++ arguments.known (typing ∷ [])) }
{
    match typing {
        Some(expr) => exprs.push(expr),
        None => Ok(()),
    }
}

/// The arguments, each null without a type as one of this type.
fn fill(
    alloc: Global,
    kind: DataType,
    typings: Vec<Option<TypedExpr>>,
) -> Result<List<TypedExpr>, OutOfMemory>
    ensures { IfOk result (λ exprs. exprs ≡ map (arguments.filled kind) typings.items) }
{
    let mut exprs = List::new(alloc);
    for typing in typings {
        exprs.push(filled(kind, typing))?;
    }
    Ok(exprs)
}

fn filled(kind: DataType, typing: Option<TypedExpr>) -> TypedExpr
    ensures { result ≡ arguments.filled kind typing }
{
    match typing {
        Some(expr) => expr,
        None => TypedExpr::Literal {
            value: Value::Null,
            kind,
        },
    }
}

fn kinds_of(alloc: Global, exprs: &[TypedExpr]) -> Result<List<DataType>, OutOfMemory>
    ensures { IfOk result (λ kinds. kinds ≡ node_types.kinds_of exprs.now) }
{
    let mut kinds = List::new(alloc);
    for expr in exprs {
        kinds.push(kind_of(expr))?;
    }
    Ok(kinds)
}

/// The type of an expression. It takes no memory.
#[tactic(auto, using(crate::proofs::ExprKinds::kinds))]
pub fn kind_of(expr: &TypedExpr) -> DataType
    ensures { result ≡ node_types.kind_of expr.now }
{
    match expr {
        TypedExpr::Column { kind, .. } => *kind,
        TypedExpr::Literal { kind, .. } => *kind,
        TypedExpr::Call { kind, .. } => *kind,
        TypedExpr::Cast { kind, .. } => *kind,
    }
}
