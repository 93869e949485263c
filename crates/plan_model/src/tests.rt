use crate::*;
use cn_base::{Boxed, Copied, List, OutOfMemory, Text};
use cn_types::{DataType, Field, Row, RowList, Schema, Value};
use std::alloc::Global;
use std::test::Fail;

fn column(place: u32) -> TypedExpr {
    TypedExpr::Column {
        place,
        kind: DataType::Long,
    }
}

fn one_of<T: Drop>(alloc: Global, item: T) -> Result<List<T>, OutOfMemory> {
    let mut items = List::new(alloc);
    items.push(item)?;
    Ok(items)
}

/// `coalesce(#0, cast('a' as long))`
fn expression(alloc: Global) -> Result<TypedExpr, OutOfMemory> {
    let literal = TypedExpr::Literal {
        value: Value::Text(Text::of(alloc, "a")?),
        kind: DataType::Text,
    };
    let mut arguments = one_of(alloc, column(0))?;
    arguments.push(TypedExpr::Cast {
        child: Boxed::new(alloc, literal)?,
        kind: DataType::Long,
    })?;
    Ok(TypedExpr::Call {
        function: Function::Coalesce,
        arguments,
        kind: DataType::Long,
    })
}

fn schema(alloc: Global) -> Result<Schema, OutOfMemory> {
    Ok(Schema(one_of(
        alloc,
        Field {
            name: Text::of(alloc, "id")?,
            kind: DataType::Long,
            nullable: false,
        },
    )?))
}

fn rows(alloc: Global) -> Result<Node, OutOfMemory> {
    let row = Row(one_of(alloc, Value::Long(7))?);
    Ok(Node::Rows {
        schema: schema(alloc)?,
        rows: RowList::of(alloc, one_of(alloc, row)?)?,
    })
}

fn range() -> Node {
    Node::Range {
        start: 1,
        end: 9,
        step: 2,
    }
}

#[test]
fn names_of_kinds_are_copied(rt: HostRuntime) -> Result<(), Fail> {
    let alloc = rt.alloc();
    assert_eq!(rt; Function::DateAdd.copy(alloc)?, Function::DateAdd);
    assert_eq!(rt; JoinKind::Anti.copy(alloc)?, JoinKind::Anti);
    assert_eq!(rt; SetKind::Except.copy(alloc)?, SetKind::Except);
    Ok(())
}

fn joined(alloc: Global) -> Result<Node, OutOfMemory> {
    let projected = Node::Project {
        input: Boxed::new(alloc, rows(alloc)?)?,
        items: one_of(alloc, expression(alloc)?)?,
    };
    let filtered = Node::Filter {
        input: Boxed::new(alloc, projected)?,
        condition: column(1),
    };
    Ok(Node::Join {
        left: Boxed::new(alloc, filtered)?,
        right: Boxed::new(alloc, range())?,
        kind: JoinKind::Full,
        condition: Some(column(2)),
    })
}

fn aggregated(alloc: Global) -> Result<Node, OutOfMemory> {
    let all = Node::SetOp {
        left: Boxed::new(alloc, joined(alloc)?)?,
        right: Boxed::new(alloc, range())?,
        kind: SetKind::Intersect,
        all: true,
    };
    let counted = AggregateCall {
        function: Function::Count,
        argument: Some(column(3)),
        distinct: true,
    };
    Ok(Node::Aggregate {
        input: Boxed::new(alloc, all)?,
        keys: one_of(alloc, column(4))?,
        calls: one_of(alloc, counted)?,
        items: one_of(alloc, column(5))?,
    })
}

fn whole(alloc: Global) -> Result<Node, OutOfMemory> {
    let distinct = Node::DistinctOn {
        input: Boxed::new(alloc, aggregated(alloc)?)?,
        columns: one_of(alloc, 6u32)?,
    };
    let key = SortKey {
        expr: column(7),
        descending: true,
        nulls_last: false,
    };
    let sorted = Node::Sort {
        input: Boxed::new(alloc, distinct)?,
        keys: one_of(alloc, key)?,
    };
    Ok(Node::Slice {
        input: Boxed::new(alloc, sorted)?,
        skip: 8,
        take: Some(9),
    })
}

fn plan(alloc: Global) -> Result<Resolved, OutOfMemory> {
    let save = Save {
        name: Text::of(alloc, "t")?,
        method: 1,
        mode: 2,
    };
    Ok(Resolved {
        node: whole(alloc)?,
        schema: schema(alloc)?,
        save: Some(save),
    })
}

fn copied_text(alloc: Global) -> Result<String, OutOfMemory> {
    let plan = plan(alloc)?;
    format!(in alloc; "{:?}", plan.copy(alloc)?)
}

#[test]
fn plans_are_copied(rt: HostRuntime) -> Result<(), Fail> {
    let copied = copied_text(rt.alloc())?;
    assert!(rt; copied.as_str().contains("Full"), "{copied}");
    assert!(rt; copied.as_str().contains("method: 1, mode: 2"), "{copied}");
    Ok(())
}

#[test]
fn outcomes_are_copied(rt: HostRuntime) -> Result<(), Fail> {
    let alloc = rt.alloc();
    let row = Row(one_of(alloc, Value::Boolean(true))?);
    let rows = RowList::of(alloc, one_of(alloc, row)?)?;
    let Outcome::Rows(_, copied) = Outcome::Rows(schema(alloc)?, rows).copy(alloc)? else {
        return Ok(assert!(rt; false, "no rows"));
    };
    assert_eq!(rt; copied.as_slice().len(), 1);
    let Outcome::TooManyRows { limit } = (Outcome::TooManyRows { limit: 5 }).copy(alloc)? else {
        return Ok(assert!(rt; false, "another refusal"));
    };
    assert_eq!(rt; limit, 5);
    Ok(())
}
