//! Tables of rows: an answer, `?` and a text, a row a line.
use py_base::NoMemory;
use std::alloc::Global;
use std::process::Abort;
use std::test;

/// Each row of a table holds: `holds` says so of its two parts. A row that doesn't is named. How many rows there are.
pub fn check_rows<Rt: Abort, F: Fn(Global, &str, &str) -> Result<bool, NoMemory>>(
    rt: &Rt,
    alloc: Global,
    rows: &str,
    holds: F,
) -> Result<usize, test::Fail>
    requires { F.IsAlwaysCallable holds }
{
    let mut count = 0usize;
    for row in rows.split('\n') {
        let (first, second) = row.split_once('?').ok_or("a row of one part")?;
        let found = holds(alloc, first, second)?;
        assert!(rt; found, "{row}");
        count = count.saturating_add(1);
    }
    Ok(count)
}
