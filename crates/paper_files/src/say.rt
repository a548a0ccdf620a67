// What is printed.
use answers::Refusal;
use jobfile::JobFile;
use numerals::Numeral;
use std::io;
use std::io::Write;

// A numeral of a file, or what it is refused with.
fn say_numeral<W: Write>(out: &mut W, given: Result<Numeral, Refusal>) -> io::Result<()> {
    match given {
        Ok(numeral) => write!(out, " {}", numeral.value),
        Err(refusal) => write!(out, " refused {}", refusal.number()),
    }
}

pub fn say_numerals<W: Write>(
    out: &mut W,
    first: Result<Numeral, Refusal>,
    second: Result<Numeral, Refusal>,
) -> io::Result<()> {
    write!(out, "numerals")?;
    say_numeral(out, first)?;
    say_numeral(out, second)?;
    write!(out, ", ")
}

// N, B, S, where the card bytes begin, and these; 0 for each and no bytes where the job is refused.
pub fn say_job<W: Write>(out: &mut W, given: Result<JobFile, Refusal>) -> io::Result<()> {
    saying::parts::say_uncounted(out, "job", &given)?;
    let Ok(job) = given else {
        return write!(out, " N 0 B 0 S 0 start 0 cards");
    };
    write!(
        out,
        " N {} B {} S {} start {}",
        job.racks, job.bytes, job.slots, job.start
    )?;
    saying::parts::say_cards(out, job.cards)
}
