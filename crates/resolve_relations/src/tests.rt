use crate::{drop_columns, limit, range};
use cn_base::{List, Text};
use plan_model::Node;
use resolve_names::ResolveStop;
use std::alloc::Global;

/// How many columns are left of a range without the one of this name.
fn left_without(alloc: Global, name: &str) -> Result<usize, ResolveStop> {
    let mut names = List::new(alloc);
    names.push(Text::of(alloc, name)?)?;
    let numbers = range(alloc, 0, 0, 10, 1)?;
    let left = drop_columns(alloc, false, numbers, &[], names.as_slice())?;
    Ok(left.columns.as_slice().len())
}

#[test]
fn a_dropped_column_is_gone(rt: HostRuntime) {
    match left_without(rt.alloc(), "ID") {
        Ok(count) => assert_eq!(rt; count, 0),
        Err(_) => assert!(rt; false),
    }
}

#[test]
fn an_unknown_name_drops_nothing(rt: HostRuntime) {
    match left_without(rt.alloc(), "name") {
        Ok(count) => assert_eq!(rt; count, 1),
        Err(_) => assert!(rt; false),
    }
}

/// How many rows a limit of a range takes.
fn taken(alloc: Global, number: i32) -> Result<Option<u32>, ResolveStop> {
    let numbers = range(alloc, 0, 0, 10, 1)?;
    let first = limit(alloc, numbers, number)?;
    match &first.node {
        Node::Slice { take, .. } => Ok(*take),
        _ => Ok(None),
    }
}

#[test]
fn a_limit_takes_its_number(rt: HostRuntime) {
    match taken(rt.alloc(), 3) {
        Ok(Some(count)) => assert_eq!(rt; count, 3),
        Ok(None) => assert!(rt; false),
        Err(_) => assert!(rt; false),
    }
}
