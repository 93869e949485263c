ghost use Rattle.std.specs.Prelude.{◌≡◌, [], ◌∷◌, ◌++◌, All, IfOk};
ghost use Rattle.cn_types.specs.Fit.{FitsTypes};
ghost use Rattle.plan_model.specs.NodeTypes.{schema_types, types};
ghost use Rattle.plan_model.specs.WellFormed.{IsCondition, IsWellFormed, IsWellFormedPlan};

use crate::evaluate;
use cn_base::{Boxed, List, OutOfMemory, Text};
use cn_types::{DataType, Field, Row, RowList, Schema, Value};
use plan_model::{AggregateCall, Function, JoinKind, Node, Outcome, Resolved, SetKind, TypedExpr};
use std::alloc::Global;
use std::test::Fail;

fn field(alloc: Global) -> Result<Field, OutOfMemory>
    ensures { IfOk result (λ f. f.kind ≡ DataType.Long) }
{
    Ok(Field {
        name: Text::of(alloc, "k")?,
        kind: DataType::Long,
        nullable: true,
    })
}

/// A schema of one long, and one of two.
fn one_long(alloc: Global) -> Result<Schema, OutOfMemory>
    ensures { IfOk result (λ s. schema_types s ≡ DataType.Long ∷ []) }
{
    let mut fields = List::new(alloc);
    fields.push(field(alloc)?)?;
    Ok(Schema(fields))
}

fn two_longs(alloc: Global) -> Result<Schema, OutOfMemory>
    ensures { IfOk result (λ s. schema_types s ≡ DataType.Long ∷ DataType.Long ∷ []) }
{
    let mut fields = List::new(alloc);
    fields.push(field(alloc)?)?;
    fields.push(field(alloc)?)?;
    Ok(Schema(fields))
}

fn value_of(number: Option<i64>) -> Value
    ensures { FitsTypes (DataType.Long ∷ []) (record { 0 = result ∷ [] }) }
{
    match number {
        Some(number) => Value::Long(number),
        None => Value::Null,
    }
}

fn row_of(alloc: Global, number: Option<i64>) -> Result<Row, OutOfMemory>
    ensures { IfOk result (FitsTypes (DataType.Long ∷ [])) }
{
    let mut values = List::new(alloc);
    values.push(value_of(number))?;
    Ok(Row(values))
}

fn rows_of_longs(alloc: Global, numbers: &[Option<i64>]) -> Result<List<Row>, OutOfMemory>
    ensures { IfOk result (λ rows. All (FitsTypes (DataType.Long ∷ [])) rows) }
{
    let mut rows = List::new(alloc);
    for number in numbers {
        rows.push(row_of(alloc, *number)?)?;
    }
    Ok(rows)
}

/// A table of one long column.
#[tactic(auto, using(crate::proofs::TestFacts::rows_well_formed, crate::proofs::TestFacts::rows_kinds))]
fn table(alloc: Global, numbers: &[Option<i64>]) -> Result<Node, OutOfMemory>
    ensures well_formed { IfOk result IsWellFormed }
    ensures kinds { IfOk result (λ node. types node ≡ DataType.Long ∷ []) }
{
    let list = rows_of_longs(alloc, numbers)?;
    let rows = RowList::of(alloc, list)?;
    let schema = one_long(alloc)?;
    Ok(Node::Rows { schema, rows })
}

fn column(place: u32) -> TypedExpr
    ensures { result ≡ TypedExpr.Column place DataType.Long }
{
    TypedExpr::Column {
        place,
        kind: DataType::Long,
    }
}

/// The first and the second column.
fn columns(alloc: Global) -> Result<List<TypedExpr>, OutOfMemory>
    ensures { IfOk result (λ list. list ≡ TypedExpr.Column 0 DataType.Long ∷ TypedExpr.Column 1 DataType.Long ∷ []) }
{
    let mut list = List::new(alloc);
    list.push(column(0))?;
    list.push(column(1))?;
    Ok(list)
}

#[tactic(auto, using(crate::proofs::TestFacts::equality_is_condition))]
fn equality(alloc: Global) -> Result<TypedExpr, OutOfMemory>
    ensures { IfOk result (IsCondition (DataType.Long ∷ DataType.Long ∷ [])) }
{
    Ok(TypedExpr::Call {
        function: Function::EqualTo,
        arguments: columns(alloc)?,
        kind: DataType::Boolean,
    })
}

/// `left full join right on left.k = right.k`
fn full_join(alloc: Global) -> Result<Resolved, OutOfMemory>
    ensures { IfOk result IsWellFormedPlan }
{
    let left = table(alloc, &[Some(1), None, Some(2), Some(2)])?;
    let right = table(alloc, &[Some(2), None, Some(3)])?;
    let condition = equality(alloc)?;
    let schema = two_longs(alloc)?;
    let node = joined(alloc, left, right, condition)?;
    Ok(Resolved {
        node,
        schema,
        save: None,
    })
}

#[tactic(auto, using(crate::proofs::TestFacts::join_well_formed, crate::proofs::TestFacts::join_kinds))]
fn joined(alloc: Global, left: Node, right: Node, condition: TypedExpr) -> Result<Node, OutOfMemory>
    requires left { IsWellFormed left }
    requires right { IsWellFormed right }
    requires left_kinds { types left ≡ DataType.Long ∷ [] }
    requires right_kinds { types right ≡ DataType.Long ∷ [] }
    requires condition { IsCondition (DataType.Long ∷ DataType.Long ∷ []) condition }
    ensures well_formed { IfOk result IsWellFormed }
    ensures kinds { IfOk result (λ node. types node ≡ DataType.Long ∷ DataType.Long ∷ []) }
{
    Ok(Node::Join {
        left: Boxed::new(alloc, left)?,
        right: Boxed::new(alloc, right)?,
        kind: JoinKind::Full,
        condition: Some(condition),
    })
}

/// `left except all right`
fn except_all(alloc: Global) -> Result<Resolved, OutOfMemory>
    ensures { IfOk result IsWellFormedPlan }
{
    let left = table(alloc, &[Some(1), None, Some(1), Some(2), None, Some(1)])?;
    let right = table(alloc, &[Some(1), None, Some(2), Some(2)])?;
    let schema = one_long(alloc)?;
    let node = excepted(alloc, left, right)?;
    Ok(Resolved {
        node,
        schema,
        save: None,
    })
}

#[tactic(auto, using(crate::proofs::TestFacts::set_well_formed, crate::proofs::TestFacts::set_kinds))]
fn excepted(alloc: Global, left: Node, right: Node) -> Result<Node, OutOfMemory>
    requires left { IsWellFormed left }
    requires right { IsWellFormed right }
    requires left_kinds { types left ≡ DataType.Long ∷ [] }
    requires right_kinds { types right ≡ DataType.Long ∷ [] }
    ensures well_formed { IfOk result IsWellFormed }
    ensures kinds { IfOk result (λ node. types node ≡ DataType.Long ∷ []) }
{
    Ok(Node::SetOp {
        left: Boxed::new(alloc, left)?,
        right: Boxed::new(alloc, right)?,
        kind: SetKind::Except,
        all: true,
    })
}

/// `select k, count(*) from input group by k`
fn counts(alloc: Global) -> Result<Resolved, OutOfMemory>
    ensures { IfOk result IsWellFormedPlan }
{
    let input = table(alloc, &[Some(2), None, Some(1), Some(2), None])?;
    let schema = two_longs(alloc)?;
    let node = grouped(alloc, input)?;
    Ok(Resolved {
        node,
        schema,
        save: None,
    })
}

#[tactic(auto, using(crate::proofs::TestFacts::aggregate_well_formed, crate::proofs::TestFacts::aggregate_kinds))]
fn grouped(alloc: Global, input: Node) -> Result<Node, OutOfMemory>
    requires input { IsWellFormed input }
    requires kinds { types input ≡ DataType.Long ∷ [] }
    ensures well_formed { IfOk result IsWellFormed }
    ensures kinds { IfOk result (λ node. types node ≡ DataType.Long ∷ DataType.Long ∷ []) }
{
    let mut keys = List::new(alloc);
    keys.push(column(0))?;
    let mut calls = List::new(alloc);
    calls.push(AggregateCall {
        function: Function::Count,
        argument: None,
        distinct: false,
    })?;
    let items = columns(alloc)?;
    Ok(Node::Aggregate {
        input: Boxed::new(alloc, input)?,
        keys,
        calls,
        items,
    })
}

/// The rows of a plan as a text: a bar behind each value, and a semicolon behind each row.
fn shown(alloc: Global, plan: &Resolved) -> Result<String, OutOfMemory>
    requires { IsWellFormedPlan plan.now }
{
    match evaluate(alloc, plan)? {
        Outcome::Rows(_, rows) => text_of(alloc, rows.as_slice()),
        Outcome::TooManyRows { .. } => String::from_str(alloc, "too many"),
        Outcome::RowTooLarge { .. } => String::from_str(alloc, "too large"),
    }
}

fn text_of(alloc: Global, rows: &[Row]) -> Result<String, OutOfMemory> {
    let mut out = String::new(alloc);
    for row in rows {
        for value in row.0.as_slice() {
            add_value(alloc, &mut out, value)?;
        }
        out.push(';')?;
    }
    Ok(out)
}

fn add_value(alloc: Global, out: &mut String, value: &Value) -> Result<(), OutOfMemory> {
    match value {
        Value::Long(number) => out.push_str(format!(in alloc; "{number}|")?.as_str())?,
        _ => out.push_str("null|")?,
    }
    Ok(())
}

#[test]
fn nulls_match_none_in_a_join(rt: HostRuntime) -> Result<(), Fail> {
    let alloc = rt.alloc();
    let plan = Boxed::new(alloc, full_join(alloc)?)?;
    let text = shown(alloc, plan.get())?;
    assert_eq!(rt;
        text.as_str(),
        "2|2|;2|2|;1|null|;null|null|;null|null|;null|3|;"
    );
    Ok(())
}

#[test]
fn a_group_is_counted(rt: HostRuntime) -> Result<(), Fail> {
    let alloc = rt.alloc();
    let plan = Boxed::new(alloc, counts(alloc)?)?;
    let text = shown(alloc, plan.get())?;
    assert_eq!(rt; text.as_str(), "2|2|;null|2|;1|1|;");
    Ok(())
}

#[test]
fn copies_are_taken_off(rt: HostRuntime) -> Result<(), Fail> {
    let alloc = rt.alloc();
    let plan = Boxed::new(alloc, except_all(alloc)?)?;
    let text = shown(alloc, plan.get())?;
    assert_eq!(rt; text.as_str(), "1|;1|;null|;");
    Ok(())
}
