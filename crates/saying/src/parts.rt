// What a line of a case says: the answer, numbers, bytes.
use answers::{Answer, Refusal, Tally};
use racks::Job;
use std::io;
use std::io::Write;

// A name, the number given, its place, and the counts of phases, moves and copies.
pub fn say_answer<W: Write>(
    out: &mut W,
    name: &str,
    given: Result<Tally, Refusal>,
) -> io::Result<()> {
    let answer = Answer::of(given);
    let Tally {
        phases,
        moves,
        copies,
    } = answer.tally;
    let (number, place) = (answer.number, answer.place);
    write!(
        out,
        "{name}: {number} place {place} counts {phases} {moves} {copies}"
    )
}

// The same of a call that counts nothing.
pub fn say_uncounted<W: Write, T>(
    out: &mut W,
    name: &str,
    given: &Result<T, Refusal>,
) -> io::Result<()> {
    match given {
        Ok(_) => say_answer(out, name, Ok(Tally::none())),
        Err(refusal) => say_answer(out, name, Err(*refusal)),
    }
}

// A number of a list: `F` for a free slot, `h` for the hand.
pub fn say_number<W: Write>(out: &mut W, x: u16) -> io::Result<()> {
    match x {
        Job::FREE => write!(out, "F"),
        Job::HAND => write!(out, "h"),
        _ => write!(out, "{x}"),
    }
}

// A name, then the numbers of a list.
pub fn say_numbers<W: Write>(out: &mut W, name: &str, list: &[u16]) -> io::Result<()> {
    write!(out, " {name}")?;
    for x in list {
        write!(out, " ")?;
        say_number(out, *x)?;
    }
    Ok(())
}

// Bytes, two hexadecimal digits each.
pub fn say_hexes<W: Write>(out: &mut W, bytes: &[u8]) -> io::Result<()> {
    for x in bytes {
        write!(out, " {x:02x}")?;
    }
    Ok(())
}

// The bytes of the cards.
pub fn say_cards<W: Write>(out: &mut W, cards: &[u8]) -> io::Result<()> {
    write!(out, " cards")?;
    say_hexes(out, cards)
}

// A table and cards as callers lend them, with the capacities and the bytes of a card.
#[derive(Drop)]
pub struct Lent<'a> {
    pub caps: &'a [u16],
    pub b: usize,
    pub places: &'a mut [u16],
    pub cards: &'a mut [u8],
}

impl<'a> Lent<'a> {
    // What a call with these gives, and leaves in them.
    pub fn say_outcome<W: Write>(
        &self,
        out: &mut W,
        name: &str,
        given: Result<Tally, Refusal>,
    ) -> io::Result<()> {
        say_answer(out, name, given)?;
        say_numbers(out, "places", self.places)?;
        say_cards(out, self.cards)?;
        writeln!(out)
    }

    // The same, with the first eight bytes of the cards in decimal.
    pub fn say_left<W: Write>(
        &self,
        out: &mut W,
        name: &str,
        given: Result<Tally, Refusal>,
    ) -> io::Result<()> {
        say_answer(out, name, given)?;
        say_numbers(out, "places", self.places)?;
        write!(out, " cards")?;
        for x in self.cards.iter().take(8) {
            write!(out, " {x}")?;
        }
        writeln!(out)
    }
}
