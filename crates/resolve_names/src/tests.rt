use crate::{
    AnalysisError, ColumnList, ColumnOf, ErrorName, ResolveStop, ScopeColumn, attribute_place,
    identifier_parts,
};
use cn_base::{List, OutOfMemory, Text};
use cn_types::DataType;
use std::alloc::Global;
use std::test::Fail;

/// A text, and its parts with a bar behind each; a minus where it is no identifier.
static IDENTIFIERS: [(&str, &str); 13] = [
    ("id", "id|"),
    ("t.id", "t|id|"),
    ("`a.b`.c", "a.b|c|"),
    ("`a``b`", "a`b|"),
    ("``", "|"),
    ("(id + 1)", "(id + 1)|"),
    ("\u{e9}.\u{20ac}", "\u{e9}|\u{20ac}|"),
    ("", "-"),
    (".", "-"),
    ("a.", "-"),
    ("a..b", "-"),
    ("`a", "-"),
    ("`a`b", "-"),
];

/// The parts of an identifier as the table above writes them.
fn parts_text(alloc: Global, text: &str) -> Result<String, OutOfMemory> {
    let mut out = String::new(alloc);
    match identifier_parts(alloc, text)? {
        Some(parts) => {
            for part in parts.as_slice() {
                out.push_str(part.as_str())?;
                out.push('|')?;
            }
        }
        None => out.push('-')?,
    }
    Ok(out)
}

#[test]
fn identifiers_are_read(rt: HostRuntime) -> Result<(), Fail> {
    for (text, parts) in &IDENTIFIERS {
        assert_eq!(rt; parts_text(rt.alloc(), text)?.as_str(), *parts);
    }
    Ok(())
}

/// Whether case counts, an identifier, and the place that it names; a name where there is none.
static ATTRIBUTES: [(bool, &str, &str); 7] = [
    (false, "ID", "0"),
    (true, "ID", "UnresolvedColumn ID"),
    (false, "u.K", "2"),
    (false, "k", "AmbiguousReference k"),
    (true, "t.k", "1"),
    (false, "x.k", "UnresolvedColumn x.k"),
    (false, "a.", "BadIdentifier a."),
];

fn column(alloc: Global, qualifier: &str, name: &str, id: u64) -> Result<ScopeColumn, OutOfMemory> {
    let mut parts = List::new(alloc);
    parts.push(Text::of(alloc, qualifier)?)?;
    Ok(ColumnOf {
        qualifier: parts,
        name: Text::of(alloc, name)?,
        id,
        kind: DataType::Long,
        nullable: true,
    })
}

fn columns(alloc: Global) -> Result<List<ScopeColumn>, OutOfMemory> {
    let mut columns = List::new(alloc);
    columns.push(column(alloc, "t", "id", 4)?)?;
    columns.push(column(alloc, "t", "k", 5)?)?;
    columns.push(column(alloc, "u", "k", 6)?)?;
    Ok(columns)
}

fn outcome(alloc: Global, answer: Result<usize, ResolveStop>) -> Result<String, OutOfMemory> {
    match answer {
        Ok(place) => format!(in alloc; "{place}"),
        Err(ResolveStop::Analysis(error)) => {
            format!(in alloc; "{:?} {}", error.name, error.detail.as_str())
        }
        Err(ResolveStop::OutOfMemory) => format!(in alloc; "out of memory"),
    }
}

#[test]
fn attributes_are_found(rt: HostRuntime) -> Result<(), Fail> {
    let scope = columns(rt.alloc())?;
    for (exact, identifier, wanted) in &ATTRIBUTES {
        let place = attribute_place(rt.alloc(), *exact, scope.as_slice(), &[], identifier, None);
        assert_eq!(rt; outcome(rt.alloc(), place)?.as_str(), *wanted);
    }
    Ok(())
}

#[test]
fn owners_share(rt: HostRuntime) -> Result<(), Fail> {
    let detail = Text::of(rt.alloc(), "t.k")?;
    let error = AnalysisError::new(rt.alloc(), ErrorName::UnresolvedColumn, detail)?;
    let other = error.share()?;
    assert_eq!(rt; other.detail.as_str(), "t.k");
    let list = ColumnList::of(rt.alloc(), columns(rt.alloc())?)?;
    let again = list.share()?;
    assert_eq!(rt; again.as_slice().len(), 3);
    Ok(())
}
