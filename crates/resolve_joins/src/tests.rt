use crate::join;
use cn_base::{List, Text};
use resolve_names::{ResolveStop, ScopeColumn};
use resolve_relations::{Found, range};
use std::alloc::Global;
use std::test::Fail;

/// The join of two ranges, whose columns have the ids 1 and 2; new ids begin at 3.
fn joined(alloc: Global, join_type: i32, names: &[Text]) -> Result<Found, ResolveStop> {
    let left = range(alloc, 1, 0, 3, 1)?;
    let right = range(alloc, 2, 0, 3, 1)?;
    join(alloc, false, 3, left, right, join_type, &None, names)
}

/// The ids of the columns, each with a `?` where it may be null.
fn shown(alloc: Global, columns: &[ScopeColumn]) -> Result<String, ResolveStop> {
    let mut out = String::new(alloc);
    for column in columns {
        out.push_str(column.id.to_string(alloc)?.as_str())?;
        out.push_str(if column.nullable { "?" } else { " " })?;
    }
    Ok(out)
}

fn shown_join(alloc: Global, join_type: i32, names: &[Text]) -> Result<String, ResolveStop> {
    let found = joined(alloc, join_type, names)?;
    shown(alloc, found.columns.as_slice())
}

#[test]
fn columns_of_an_outer_join_may_be_null(rt: HostRuntime) {
    match shown_join(rt.alloc(), 3, &[]) {
        Ok(text) => assert_eq!(rt; text.as_str(), "1 2?"),
        Err(_) => assert!(rt; false),
    }
}

#[test]
fn a_semi_join_has_the_left_alone(rt: HostRuntime) {
    match shown_join(rt.alloc(), 6, &[]) {
        Ok(text) => assert_eq!(rt; text.as_str(), "1 "),
        Err(_) => assert!(rt; false),
    }
}

#[test]
fn the_key_of_a_full_join_is_new(rt: HostRuntime) -> Result<(), Fail> {
    let mut names = List::new(rt.alloc());
    names.push(Text::of(rt.alloc(), "id")?)?;
    match shown_join(rt.alloc(), 2, names.as_slice()) {
        Ok(text) => assert_eq!(rt; text.as_str(), "3?"),
        Err(_) => assert!(rt; false),
    }
    Ok(())
}
