// What the cases print.
use saying::parts::say_number;
use std::io;
use std::io::Write;

// The whole of a lent list as copies: from, then to.
pub fn say_steps<W: Write>(out: &mut W, lent: &[u16]) -> io::Result<()> {
    write!(out, " copies")?;
    for (i, x) in lent.iter().enumerate() {
        if i % 2 == 0 {
            write!(out, " ")?;
        } else {
            write!(out, ">")?;
        }
        say_number(out, *x)?;
    }
    writeln!(out)
}
