// Case 6 through the call that moves one card, with the refusals of its slots, of a table and of B.
#![tactic(auto)]

use racks::Job;
use saying::parts::Lent;
use std::io;
use std::io::Write;

fn say_move<W: Write>(
    out: &mut W,
    name: &str,
    lent: &mut Lent,
    from: usize,
    to: usize,
) -> io::Result<()> {
    let given = mover::one_move(lent.caps, lent.b, lent.places, lent.cards, from, to);
    lent.say_left(out, name, given)
}

// Two racks of one, each card a byte.
fn two<'a>(places: &'a mut [u16], cards: &'a mut [u8]) -> Lent<'a> {
    Lent {
        caps: &[1, 1],
        b: 1,
        places,
        cards,
    }
}

// Case 6, what a single move is refused with.
fn refused_moves<W: Write>(out: &mut W, lent: &mut Lent) -> io::Result<()> {
    say_move(out, "case 6, 0 to 0", lent, 0, 0)?;
    say_move(out, "case 6, 1 to 3", lent, 1, 3)?;
    say_move(out, "case 6, 0 to 4", lent, 0, 4)?;
    say_move(out, "case 6, 0 to 2", lent, 0, 2)
}

// Two cards that are equal in every byte, over old bytes.
fn moves_made<W: Write>(out: &mut W, lent: &mut Lent) -> io::Result<()> {
    say_move(out, "0 to 3", lent, 0, 3)?;
    say_move(out, "2 to 0, which is free now", lent, 2, 0)?;
    say_move(out, "again", lent, 2, 0)
}

fn moves<W: Write>(out: &mut W) -> io::Result<()> {
    let mut places = [2, Job::FREE, 0, Job::FREE];
    let mut cards = [65, 9, 65, 9];
    let mut lent = two(&mut places, &mut cards);
    refused_moves(out, &mut lent)?;
    moves_made(out, &mut lent)
}

// Case 6 on case 5, and cards too long.
fn other_moves<W: Write>(out: &mut W) -> io::Result<()> {
    let mut case_5 = [2, 0, Job::FREE, Job::FREE];
    let mut fresh = [2, Job::FREE, 0, Job::FREE];
    let mut twice = [2, Job::FREE, 2, Job::FREE];
    let mut cards = [65, 9, 65, 9];
    let mut long = [0; 5];
    say_move(
        out,
        "case 6, case 5, 1 to 2",
        &mut two(&mut case_5, &mut cards),
        1,
        2,
    )?;
    say_move(out, "cards too long", &mut two(&mut fresh, &mut long), 3, 0)?;
    say_move(
        out,
        "a slot named twice, and no slot 9",
        &mut two(&mut twice, &mut cards),
        9,
        0,
    )
}

fn size_first<W: Write>(out: &mut W) -> io::Result<()> {
    let mut lent = Lent {
        caps: &[1024],
        b: 0,
        places: &mut [2, Job::FREE, 0, Job::FREE],
        cards: &mut [1; 4],
    };
    say_move(out, "B 0 before a bad rack", &mut lent, 0, 0)
}

fn main(rt: HostRuntime) -> io::Result<()> {
    let out = &mut io::writer(&rt);
    moves(out)?;
    other_moves(out)?;
    size_first(out)
}
