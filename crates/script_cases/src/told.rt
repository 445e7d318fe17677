//! How a run is told.

use std::io;
use std::io::Write;

/// Writes what a script of that name wrote to the output and to the error output, and its status. A backslash stands
/// behind an output that doesn't end in a newline, and each line of the error output has a mark in front.
pub fn tell<W: Write>(
    told: &mut W,
    name: &str,
    out: &[u8],
    err: &[u8],
    status: u8,
) -> io::Result<()> {
    writeln!(told, "=== {name}")?;
    told.write_all(out)?;
    if !out.is_empty() && !out.ends_with(b"\n") {
        told.write_all(b"\\\n")?;
    }
    for line in err.split_inclusive(|b| *b == b'\n') {
        told.write_all(b"! ")?;
        told.write_all(line)?;
    }
    writeln!(told, "status {status}")
}
