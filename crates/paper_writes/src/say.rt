// What a line of a case says.
use answers::Refusal;
use std::io;
use std::io::Write;

// The number, the counts and the length.
pub fn say_size<W: Write>(to: &mut W, name: &str, given: Result<usize, Refusal>) -> io::Result<()> {
    saying::parts::say_uncounted(to, name, &given)?;
    write!(to, " length {}", given.unwrap_or(0))
}

// The bytes of a buffer.
pub fn say_file<W: Write>(to: &mut W, out: &[u8]) -> io::Result<()> {
    write!(to, " buffer")?;
    saying::parts::say_hexes(to, out)
}

// How a comparison came out.
pub fn say_same<W: Write>(to: &mut W, same: bool) -> io::Result<()> {
    if same {
        return writeln!(to, ", read back and written again: the same");
    }
    writeln!(to, ", read back and written again: DIFFERENT")
}
