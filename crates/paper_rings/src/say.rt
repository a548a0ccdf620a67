// What the jobs print.
use std::io;
use std::io::Write;

// How many slots were wrong before and after a run.
pub fn say_wrong<W: Write>(out: &mut W, before: usize, after: usize) -> io::Result<()> {
    writeln!(out, " wrong slots {before} then {after}")
}
