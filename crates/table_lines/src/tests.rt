use crate::TableLines;
use cn_base::OutOfMemory;
use std::alloc::Global;
use std::process::Abort;
use std::test::Fail;

/// Lines in their order, and whether each is taken.
static LINES: [(&[u8], bool); 16] = [
    (b"row 1", false),
    (b"table t k:long v:string", true),
    (b"table T k:long", false),
    (b"row 1\tx", true),
    (b"row \\N\t", true),
    (b"row 2\ta\\tb", true),
    (b"row 2", false),
    (b"row 2\tx\ty", false),
    (b"row x\ty", false),
    (b"row 3\tz\r", false),
    (b"table u", false),
    (b"table u k:LONG", false),
    (b"table empty d:date b:boolean i:integer", true),
    (b"row 2024-02-30\ttrue\t1", false),
    (b"row 2024-02-29\ttrue\t2147483647", true),
    (b"", false),
];

fn tables_and_rows(alloc: Global, lines: TableLines) -> Result<(usize, usize), OutOfMemory> {
    let tables = lines.finish(alloc)?;
    let mut rows = 0usize;
    for table in tables.named.as_slice() {
        rows = rows.saturating_add(table.rows.as_slice().len());
    }
    Ok((tables.named.as_slice().len(), rows))
}

#[test]
fn lines_make_tables(rt: HostRuntime) -> Result<(), Fail> {
    let mut lines = TableLines::new(rt.alloc());
    for (line, taken) in &LINES {
        assert_eq!(rt; lines.line(rt.alloc(), line)?, *taken);
    }
    let (tables, rows) = tables_and_rows(rt.alloc(), lines)?;
    assert_eq!(rt; tables, 2);
    assert_eq!(rt; rows, 4);
    Ok(())
}
