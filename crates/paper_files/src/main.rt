// Paper cards for the reader: case 8, case 1, refusals, and a job behind numerals that were read.
#![tactic(auto)]

use jobfile::Reader;
use std::io;
use std::io::Write;

mod say;

// The job at the reader's position, with room for 4 racks and 10 slots, and the lists that were lent.
fn say_job_at<W: Write>(out: &mut W, r: Reader) -> io::Result<()> {
    let mut caps = [7u16; 4];
    let mut places = [7u16; 10];
    let job = jobfile::read_job(r, &mut caps, &mut places);
    say::say_job(out, job)?;
    saying::parts::say_numbers(out, "capacities", &caps)?;
    saying::parts::say_numbers(out, "places", &places)?;
    writeln!(out)
}

// The job from the start of a file.
fn start<W: Write>(out: &mut W, name: &str, file: &[u8]) -> io::Result<()> {
    write!(out, "{name}: ")?;
    say_job_at(out, jobfile::new(file))
}

// Two numerals of a file, one after another, and the job behind them.
fn behind<W: Write>(out: &mut W, name: &str, file: &[u8]) -> io::Result<()> {
    let mut r = jobfile::new(file);
    let first = jobfile::next(&mut r);
    let second = jobfile::next(&mut r);
    write!(out, "{name}: ")?;
    say::say_numerals(out, first, second)?;
    say_job_at(out, r)
}

// The numerals of case 8, each followed by the end of the file, and one after another.
fn case_8<W: Write>(out: &mut W) -> io::Result<()> {
    behind(out, "80 01", b"\x80\x01")?;
    behind(out, "80 80 01", b"\x80\x80\x01")?;
    behind(out, "80 00", b"\x80\x00")?;
    behind(out, "80 alone", b"\x80")?;
    behind(out, "80 80 80", b"\x80\x80\x80")?;
    behind(out, "80 01 and 80 80 01", b"\x80\x01\x80\x80\x01")
}

// Beside case 8: padded in the third group is 14; a third group with its top bit set is 20 at once, whatever follows it.
fn third_groups<W: Write>(out: &mut W) -> io::Result<()> {
    behind(out, "80 80 00", b"\x80\x80\x00")?;
    behind(out, "80 80 80 00", b"\x80\x80\x80\x00")?;
    behind(out, "80 80 80 01", b"\x80\x80\x80\x01")
}

// Case 1 from the start of its file, behind two numerals, and with its first two numerals read.
fn case_1<W: Write>(out: &mut W) -> io::Result<()> {
    start(
        out,
        "case 1",
        b"\x03\x01\x02\x02\x01\x04\x05\x00\x01\x07\x00\x02\x00\x41\x42\x00\x43\x44\x00\x45\x00",
    )?;
    behind(
        out,
        "case 1 behind 80 01 and 80 80 01",
        b"\x80\x01\x80\x80\x01\x03\x01\x02\x02\x01\x04\x05\x00\x01\x07\x00\x02\x00\x41\x42\x00\x43\x44\x00\x45\x00",
    )?;
    behind(
        out,
        "case 1 from its third numeral on",
        b"\x03\x01\x02\x02\x01\x04\x05\x00\x01\x07\x00\x02\x00\x41\x42\x00\x43\x44\x00\x45\x00",
    )
}

// Case 1 with a byte left over, with bad entries and with entries that name one slot, and more slots than there is room for.
fn refusals<W: Write>(out: &mut W) -> io::Result<()> {
    start(
        out,
        "case 1, a byte left over",
        b"\x03\x01\x02\x02\x01\x04\x05\x00\x01\x07\x00\x02\x00\x41\x42\x00\x43\x44\x00\x45\x00\x00",
    )?;
    start(
        out,
        "case 1, slot 3 named twice",
        b"\x03\x01\x02\x02\x01\x04\x04\x00\x01\x07\x00\x02\x00\x41\x42\x00\x43\x44\x00\x45\x00",
    )?;
    start(
        out,
        "case 1, entries 1 and 3 bad",
        b"\x03\x01\x02\x02\x01\x04\x06\x00\x09\x07\x00\x02\x00\x41\x42\x00\x43\x44\x00\x45\x00",
    )?;
    start(
        out,
        "case 1, entry 2 above all slots",
        b"\x03\x01\x02\x02\x01\x04\x05\x81\x20\x09\x07\x00\x02\x00\x41\x42\x00\x43\x44\x00\x45\x00",
    )?;
    start(
        out,
        "case 1, slot 3 named three times",
        b"\x03\x01\x02\x02\x01\x04\x05\x00\x04\x07\x00\x04\x00\x41\x42\x00\x43\x44\x00\x45\x00",
    )?;
    start(
        out,
        "ten user slots",
        b"\x01\x01\x0a\x00\x00\x00\x00\x00\x00\x00\x00\x00\x00\x00\x00\x00\x00\x00\x00\x00\x00\x00\x00\x00\x00",
    )
}

fn main(rt: HostRuntime) -> io::Result<()> {
    let out = &mut io::writer(&rt);
    case_8(out)?;
    third_groups(out)?;
    case_1(out)?;
    refusals(out)
}
