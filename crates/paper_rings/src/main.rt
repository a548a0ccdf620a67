// Whole runs that fill the limits. Every user slot holds a card at the start, so each holds its own card at the end and the spares are free.
#![tactic(auto)]

ghost use Rattle.std.specs.Prelude.{◌<◌};

use deal::Deal;
use saying::parts::Lent;
use std::io;
use std::io::Write;

mod check;
mod deal;
mod say;

// Runs a job that was dealt, and says the answer and how many slots were wrong before and after.
fn finish<W: Write>(out: &mut W, name: &str, deal: Deal, job: &mut Lent) -> io::Result<()> {
    let before = check::wrong_slots(deal, job);
    let given = runner::whole_run(job.caps, job.b, job.places, job.cards);
    saying::parts::say_answer(out, name, given)?;
    let after = check::wrong_slots(deal, job);
    say::say_wrong(out, before, after)
}

// Deals a job and runs it.
fn run<W: Write>(out: &mut W, name: &str, deal: Deal, job: &mut Lent) -> io::Result<()>
    requires { 0 < job.old.b }
{
    deal.places(job.places);
    deal.cards(job.b, job.cards);
    finish(out, name, deal, job)
}

fn even_ring<W: Write>(out: &mut W) -> io::Result<()> {
    let name = "a full ring of 1,008 1,008 1,008 1,008, B 1";
    let mut job = Lent {
        caps: &[1008; 4],
        b: 1,
        places: &mut [0; 4036],
        cards: &mut [0; 4036],
    };
    run(out, name, Deal::Even, &mut job)
}

fn even_ring_wide<W: Write>(out: &mut W) -> io::Result<()> {
    let name = "a full ring of 1,008 1,008 1,008 1,008, B 16";
    let mut job = Lent {
        caps: &[1008; 4],
        b: 16,
        places: &mut [0; 4036],
        cards: &mut [0; 64576],
    };
    run(out, name, Deal::Even, &mut job)
}

fn uneven_ring<W: Write>(out: &mut W) -> io::Result<()> {
    let name = "a full ring of 1,023 1,023 1,023 963, B 1";
    let mut job = Lent {
        caps: &[1023, 1023, 1023, 963],
        b: 1,
        places: &mut [0; 4036],
        cards: &mut [0; 4036],
    };
    run(out, name, Deal::Uneven, &mut job)
}

fn uneven_ring_wide<W: Write>(out: &mut W) -> io::Result<()> {
    let name = "a full ring of 1,023 1,023 1,023 963, B 16";
    let mut job = Lent {
        caps: &[1023, 1023, 1023, 963],
        b: 16,
        places: &mut [0; 4036],
        cards: &mut [0; 64576],
    };
    run(out, name, Deal::Uneven, &mut job)
}

fn transposed<W: Write>(out: &mut W) -> io::Result<()> {
    let mut job = Lent {
        caps: &[63; 64],
        b: 1,
        places: &mut [0; 4096],
        cards: &mut [0; 4096],
    };
    run(
        out,
        "64 racks of 63, transposed",
        Deal::Transposed,
        &mut job,
    )
}

fn spread<W: Write>(out: &mut W) -> io::Result<()> {
    let name = "64 racks of 63, spread over all others, B 16";
    let mut job = Lent {
        caps: &[63; 64],
        b: 16,
        places: &mut [0; 4096],
        cards: &mut [0; 65536],
    };
    run(out, name, Deal::Spread, &mut job)
}

fn swapped<W: Write>(out: &mut W) -> io::Result<()> {
    let mut job = Lent {
        caps: &[1023],
        b: 1,
        places: &mut [0; 1024],
        cards: &mut [0; 1024],
    };
    run(
        out,
        "one rack of 1,023, all two-cycles",
        Deal::Swapped,
        &mut job,
    )
}

// A card with a byte that is not its own comes out wrong, and no other.
fn spoiled<W: Write>(out: &mut W) -> io::Result<()> {
    let mut places = [0; 1024];
    let mut cards = [0; 1024];
    Deal::Swapped.places(&mut places);
    Deal::Swapped.cards(1, &mut cards);
    cards[500] = 255;
    let mut job = Lent {
        caps: &[1023],
        b: 1,
        places: &mut places,
        cards: &mut cards,
    };
    finish(
        out,
        "the same with one byte changed",
        Deal::Swapped,
        &mut job,
    )
}

fn main(rt: HostRuntime) -> io::Result<()> {
    let out = &mut io::writer(&rt);
    even_ring(out)?;
    even_ring_wide(out)?;
    uneven_ring(out)?;
    uneven_ring_wide(out)?;
    transposed(out)?;
    spread(out)?;
    swapped(out)?;
    spoiled(out)
}
