use crate::{Names, item_of, name_of, projected};
use cn_base::{List, OutOfMemory, Text};
use cn_types::DataType;
use expression_messages::{Expr, Literal, UnresolvedAttribute, UnresolvedFunction, UnresolvedStar};
use resolve_names::{ColumnOf, ResolveStop, Scope, ScopeColumn};
use std::alloc::Global;
use std::test::Fail;

/// The columns `id` and `name`, the first of which may not be null.
fn two_columns(alloc: Global) -> Result<List<ScopeColumn>, OutOfMemory> {
    let mut columns = List::new(alloc);
    columns.push(column(alloc, "id", DataType::Long, false)?)?;
    columns.push(column(alloc, "name", DataType::Text, true)?)?;
    Ok(columns)
}

fn column(
    alloc: Global,
    name: &str,
    kind: DataType,
    nullable: bool,
) -> Result<ScopeColumn, OutOfMemory> {
    Ok(ColumnOf {
        qualifier: List::new(alloc),
        name: Text::of(alloc, name)?,
        id: 7,
        kind,
        nullable,
    })
}

fn attribute(alloc: Global, name: &str) -> Result<Expr, OutOfMemory> {
    Ok(Expr::UnresolvedAttribute(UnresolvedAttribute {
        unparsed_identifier: Text::of(alloc, name)?,
        plan_id: None,
    }))
}

/// `ID + 1`.
fn next_id(alloc: Global) -> Result<Expr, OutOfMemory> {
    let mut arguments = List::new(alloc);
    arguments.push(attribute(alloc, "ID")?)?;
    arguments.push(Expr::Literal(Literal::Integer(1)))?;
    Ok(Expr::UnresolvedFunction(UnresolvedFunction {
        function_name: Text::of(alloc, "+")?,
        arguments,
        is_distinct: false,
    }))
}

/// The name of an expression's column over the two columns, a space, and whether it stays one of them.
fn shown(alloc: Global, expr: &Expr) -> Result<String, ResolveStop> {
    let columns = two_columns(alloc)?;
    let names = Names {
        case_sensitive: false,
        columns: columns.as_slice(),
        relations: &[],
    };
    let mut calls = List::new(alloc);
    let item = item_of(alloc, &names, expr, true, &mut calls)?;
    let stays = item.source.is_some();
    let mut out = String::from_str(alloc, item.name.as_str())?;
    out.push_str(if stays { " stays" } else { " is computed" })?;
    Ok(out)
}

#[test]
fn an_attribute_stays_its_column(rt: HostRuntime) -> Result<(), Fail> {
    let expr = attribute(rt.alloc(), "ID")?;
    match shown(rt.alloc(), &expr) {
        Ok(text) => assert_eq!(rt; text.as_str(), "id stays"),
        Err(_) => assert!(rt; false),
    }
    Ok(())
}

#[test]
fn a_sum_is_computed(rt: HostRuntime) -> Result<(), Fail> {
    let expr = next_id(rt.alloc())?;
    match shown(rt.alloc(), &expr) {
        Ok(text) => assert_eq!(rt; text.as_str(), "(id + 1) is computed"),
        Err(_) => assert!(rt; false),
    }
    Ok(())
}

#[test]
fn a_name_needs_no_setting(rt: HostRuntime) -> Result<(), Fail> {
    let expr = next_id(rt.alloc())?;
    let scope = Scope(two_columns(rt.alloc())?);
    let name = name_of(rt.alloc(), &expr, &scope)?;
    assert_eq!(rt; name.as_str(), "(id + 1)");
    Ok(())
}

/// How many columns a star projects of the two.
fn starred(alloc: Global) -> Result<usize, ResolveStop> {
    let columns = two_columns(alloc)?;
    let names = Names {
        case_sensitive: false,
        columns: columns.as_slice(),
        relations: &[],
    };
    let mut exprs = List::new(alloc);
    exprs.push(Expr::UnresolvedStar(UnresolvedStar {
        unparsed_target: None,
    }))?;
    let items = projected(alloc, &names, exprs.as_slice())?;
    Ok(items.len())
}

#[test]
fn a_star_is_all_columns(rt: HostRuntime) {
    match starred(rt.alloc()) {
        Ok(count) => assert_eq!(rt; count, 2),
        Err(_) => assert!(rt; false),
    }
}
