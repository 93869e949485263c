use crate::{TextFault, parse_pipeline};
use cn_base::OutOfMemory;
use std::alloc::Global;
use std::process::Abort;
use std::test::Fail;

/// Pipelines.
static READ: [&str; 8] = [
    "range 0 3 1",
    "table `a``b` | sort x",
    "values (k long, v string) (1, 'it''s') (null, null)",
    "table t | where a + b * 2L >= -3 and not c is null or d",
    "table t | alias l | join left (table u | alias r) on l.k = r.k | select *, r.*, f(distinct a) as b",
    "table t | group k agg count(*) as n | write `x y` overwrite",
    "range 0 3 1 | id 7 | select @7.id, cast(id as string), date '2024-02-29'",
    "table t | distinct on a, b | rename a as c | limit 2 | union all (table u)",
];

/// Texts that are none, and where.
static UNEXPECTED: [(&str, u64); 24] = [
    ("range 9223372036854775808 0 1", 6),
    ("", 0),
    ("table a.b", 7),
    ("values (x long) ('1')", 17),
    ("values (x long, s string) (1, 'a', 2)", 33),
    ("values (x LONG)", 10),
    ("range 0 3 1 | select id as as", 27),
    ("range 0 3 1 | names x, 'y'", 23),
    ("range 0 3 1 | limit", 19),
    ("range 0 3 1 |", 13),
    ("table t | join outer (table u)", 15),
    ("range 0 1 1 | write a.b", 21),
    ("range 0 1 1 | select 5 L", 23),
    ("range 0 1 1 | select a, 'b, c", 24),
    ("range 0 1 1 | select .a", 21),
    ("range 0 1 1 | where a = not b", 24),
    ("range 0 1 1 | where a is not", 28),
    ("range 0 1 1 | select f(a distinct)", 25),
    ("range 0 1 1 | select cast", 25),
    ("table t | group", 15),
    ("table t t | alias l", 8),
    (
        "table t | intersect (table u | distinct)  write `x y` overwrite",
        42,
    ),
    ("table t | alias l table join left (table u)", 18),
    ("range - 5 3 1", 6),
];

fn fault(alloc: Global, text: &str) -> Option<TextFault> {
    match parse_pipeline(alloc, text) {
        Ok(_) => None,
        Err(fault) => Some(fault),
    }
}

#[test]
fn pipelines_are_read(rt: HostRuntime) -> Result<(), Fail> {
    for text in &READ {
        assert!(rt; fault(rt.alloc(), text).is_none());
    }
    Ok(())
}

#[test]
fn texts_are_refused_at_their_token(rt: HostRuntime) -> Result<(), Fail> {
    for (text, at) in &UNEXPECTED {
        assert!(rt; fault(rt.alloc(), text) == Some(TextFault::Unexpected { at: *at }));
    }
    Ok(())
}

/// A text and, behind it, a part so many times.
fn repeated(
    alloc: Global,
    text: &str,
    part: &str,
    times: usize,
    end: &str,
) -> Result<String, OutOfMemory> {
    let mut out = String::from_str(alloc, text)?;
    for _ in 0..times {
        out.push_str(part)?;
    }
    out.push_str(end)?;
    Ok(out)
}

#[test]
fn depth_and_length_are_limited(rt: HostRuntime) -> Result<(), Fail> {
    let alloc = rt.alloc();
    let deep = repeated(alloc, "range 0 3 1", " | limit 5", 98, "")?;
    assert!(rt; fault(alloc, deep.as_str()).is_none());
    let too_deep = repeated(alloc, "range 0 3 1", " | limit 5", 99, "")?;
    assert!(rt; fault(alloc, too_deep.as_str()) == Some(TextFault::TooDeep { at: 1001 }));
    let longest = repeated(alloc, "range 0 3 1", " ", 1_048_565, "")?;
    assert!(rt; fault(alloc, longest.as_str()).is_none());
    let too_long = repeated(alloc, "range 0 3 1", " ", 1_048_566, "")?;
    assert!(rt; fault(alloc, too_long.as_str()) == Some(TextFault::TooLong { limit: 1_048_576 }));
    Ok(())
}

#[test]
fn nesting_takes_no_stack(rt: HostRuntime) -> Result<(), Fail> {
    let alloc = rt.alloc();
    let brackets = repeated(alloc, "range 0 1 1 | where ", "(", 400_000, "a")?;
    let open = fault(alloc, brackets.as_str());
    assert!(rt; open == Some(TextFault::Unexpected { at: 400_021 }));
    let operators = repeated(alloc, "range 0 1 1 | where a", " + a", 10_000, "")?;
    assert!(rt; fault(alloc, operators.as_str()) == Some(TextFault::TooDeep { at: 40_021 }));
    Ok(())
}
