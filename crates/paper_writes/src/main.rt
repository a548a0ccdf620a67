// Paper cards for the writer: cases 1, 3, 9 and 10, numbers of two groups, and refusals. Each file is read back and what was read is written again.
#![tactic(auto)]

use given::Given;
use racks::Job;
use std::io;
use std::io::Write;

mod again;
mod deal;
mod given;
mod say;

// Writes a job, and says the answer and the length, which is 0 where it is refused.
fn write<W: Write>(to: &mut W, name: &str, job: Given, out: &mut [u8]) -> io::Result<usize> {
    let given = job.write(out);
    say::say_size(to, name, given)?;
    Ok(given.unwrap_or(0))
}

// Says whether the file comes out the same once more; a refusal has no file.
fn compare<W: Write>(to: &mut W, job: Given, out: &[u8], size: usize) -> io::Result<()> {
    if size == 0 || out.len() < size {
        return writeln!(to);
    }
    say::say_same(to, again::same(&out[..size], job))
}

// A job written, the bytes of the buffer, and the comparison.
fn show<W: Write>(to: &mut W, name: &str, job: Given, out: &mut [u8]) -> io::Result<()> {
    let size = write(to, name, job, out)?;
    say::say_file(to, out)?;
    compare(to, job, out, size)
}

// The same of a long file, without its bytes.
fn show_long<W: Write>(to: &mut W, name: &str, job: Given, out: &mut [u8]) -> io::Result<()> {
    let size = write(to, name, job, out)?;
    compare(to, job, out, size)
}

// Cases 1, 3 and 10, with a byte of the buffer behind each file.
fn cases<W: Write>(to: &mut W) -> io::Result<()> {
    let case_1 = Given {
        caps: &[2, 2, 1],
        b: 1,
        places: &[3, 4, Job::FREE, 0, 6, Job::FREE, 1, Job::FREE],
        cards: b"\x41\x42\x00\x43\x44\x00\x45\x00",
    };
    let case_3 = Given::of(&[2], 2, &[1, 0, Job::FREE], b"abcdef");
    let case_10 = Given::of(&[0], 1, &[Job::FREE], b"\x55");
    show(to, "case 1", case_1, &mut [7; 22])?;
    show(to, "case 3, B 2", case_3, &mut [7; 13])?;
    show(to, "case 10", case_10, &mut [7; 6])
}

// Case 9: 64 racks of 63.
fn racks_of_63<W: Write>(to: &mut W) -> io::Result<()> {
    let mut places = [0u16; 4096];
    let mut cards = [0u8; 4096];
    deal::deal_places(64, &mut places);
    deal::deal_cards(&mut cards);
    let job = Given::of(&[63; 64], 1, &places, &cards);
    show_long(to, "64 racks of 63", job, &mut [7; 12289])
}

// Case 9: one rack of 1,023, a capacity of two groups.
fn rack_of_1023<W: Write>(to: &mut W) -> io::Result<()> {
    let mut places = [0u16; 1024];
    let mut cards = [0u8; 1024];
    deal::deal_places(1024, &mut places);
    deal::deal_cards(&mut cards);
    let job = Given::of(&[1023], 1, &places, &cards);
    show_long(to, "one rack of 1,023", job, &mut [7; 3073])
}

// Case 9: B 256, of two groups.
fn bytes_256<W: Write>(to: &mut W) -> io::Result<()> {
    let mut cards = [0u8; 2048];
    deal::deal_cards(&mut cards);
    let job = Given {
        caps: &[2, 2, 1],
        b: 256,
        places: &[3, 4, Job::FREE, 0, 6, Job::FREE, 1, Job::FREE],
        cards: &cards,
    };
    show_long(to, "case 1, B 256", job, &mut [7; 2063])
}

// The numbers 1 to 6.
fn refusals<W: Write>(to: &mut W) -> io::Result<()> {
    let no_rack = Given::of(&[], 1, &[], b"");
    let b_257 = Given::of(&[0], 257, &[Job::FREE], b"\x55");
    let rack_of_1024 = Given::of(&[1024], 1, &[Job::FREE], b"\x55");
    let card_too_few = Given::of(&[0], 1, &[Job::FREE], b"");
    let spare_named = Given::of(&[0], 1, &[0], b"\x55");
    let named_twice = Given::of(&[2], 1, &[1, 1, Job::FREE], b"abc");
    show(to, "no rack", no_rack, &mut [7; 3])?;
    show(to, "B 257", b_257, &mut [7; 5])?;
    show(to, "a rack of 1,024", rack_of_1024, &mut [7; 5])?;
    show(to, "a card too few", card_too_few, &mut [7; 5])?;
    show(to, "a spare named", spare_named, &mut [7; 5])?;
    show(to, "a slot named twice", named_twice, &mut [7; 9])
}

// 19 where the buffer is a byte too short: case 10 into such a one, and into one that is just long enough.
fn short_buffers<W: Write>(to: &mut W) -> io::Result<()> {
    let case_10 = Given::of(&[0], 1, &[Job::FREE], b"\x55");
    show(to, "case 10 in 4 bytes", case_10, &mut [7; 4])?;
    show(to, "case 10 in 5 bytes", case_10, &mut [7; 5])
}

fn main(rt: HostRuntime) -> io::Result<()> {
    let to = &mut io::writer(&rt);
    cases(to)?;
    racks_of_63(to)?;
    rack_of_1023(to)?;
    bytes_256(to)?;
    refusals(to)?;
    short_buffers(to)
}
