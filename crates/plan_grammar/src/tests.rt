use crate::{GrammarFault, derivation};
use std::alloc::Global;
use std::test::Fail;

/// Pipelines, and how many deeds they are derived by.
static DERIVED: [(&str, usize); 8] = [
    ("range 0 3 1", 4),
    ("table t", 2),
    ("table t | limit 5 | offset 1", 6),
    ("values (a long)", 4),
    (
        "values (a long, b date) (-1, date '2024-02-29') (null, null)",
        12,
    ),
    ("table t | where a + 1 = b", 12),
    ("table t | drop a, b", 5),
    ("table t | join cross (range 0 1 1) | write u append", 11),
];

/// Texts without a derivation, and the place of the token that stands in no continuation.
static REFUSED: [(&str, usize); 9] = [
    ("", 0),
    ("range 0 3", 9),
    ("range 0 3 9223372036854775808", 10),
    ("table select", 6),
    ("values (a long) ('1')", 17),
    ("table t | where a + = b", 20),
    ("table t | limit 5 6", 18),
    ("table t | join (range 0 1 1)", 15),
    ("table t | join cross (range 0 1 1) | write u append |", 52),
];

fn deeds(alloc: Global, text: &str) -> Option<usize> {
    match derivation(alloc, text) {
        Ok(deeds) => Some(deeds.len()),
        Err(_) => None,
    }
}

fn place(alloc: Global, text: &str) -> Option<usize> {
    match derivation(alloc, text) {
        Ok(_) => None,
        Err(GrammarFault::Unexpected { at }) => Some(at),
        Err(GrammarFault::OutOfMemory) => None,
    }
}

#[test]
fn pipelines_have_a_derivation(rt: HostRuntime) -> Result<(), Fail> {
    for (text, number) in &DERIVED {
        assert!(rt; deeds(rt.alloc(), text) == Some(*number));
    }
    Ok(())
}

#[test]
fn other_texts_are_refused_at_a_token(rt: HostRuntime) -> Result<(), Fail> {
    for (text, at) in &REFUSED {
        assert!(rt; place(rt.alloc(), text) == Some(*at));
    }
    Ok(())
}
