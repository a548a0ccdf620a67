// Cases 1, 3, 4 and 5, two racks of 6, and refusals.
use crate::say;
use racks::Job;
use saying::parts::Lent;
use std::io;
use std::io::Write;

fn say_copies<W: Write>(
    out: &mut W,
    name: &str,
    caps: &[u16],
    places: &[u16],
    lent: &mut [u16],
) -> io::Result<()> {
    let given = copies::copy_list(caps, places, lent);
    saying::parts::say_answer(out, name, given)?;
    say::say_steps(out, lent)
}

fn say_shuffle<W: Write>(out: &mut W, name: &str, lent: &mut Lent) -> io::Result<()> {
    let given = shuffler::shuffle_cards(lent.caps, lent.b, lent.places, lent.cards);
    lent.say_outcome(out, name, given)
}

fn say_run<W: Write>(out: &mut W, name: &str, lent: &mut Lent) -> io::Result<()> {
    let given = runner::whole_run(lent.caps, lent.b, lent.places, lent.cards);
    lent.say_outcome(out, name, given)
}

// The copy list of case 3, and those after the phases of cases 1, 4 and 5.
fn copies_of_cases<W: Write>(out: &mut W) -> io::Result<()> {
    say_copies(
        out,
        "copies of case 3",
        &[2],
        &[1, 0, Job::FREE],
        &mut [7; 6],
    )?;
    say_copies(
        out,
        "copies of case 1 after its phases",
        &[2, 2, 1],
        &[1, Job::FREE, 0, 4, Job::FREE, 3, Job::FREE, 6],
        &mut [7; 10],
    )?;
    say_copies(
        out,
        "copies of case 4 after its phase",
        &[1, 1],
        &[Job::FREE, 0, Job::FREE, 2],
        &mut [7; 4],
    )?;
    say_copies(
        out,
        "copies of case 5 after its phase",
        &[1, 1],
        &[Job::FREE, 0, 2, Job::FREE],
        &mut [7; 2],
    )
}

// One rack of 6: two shifts, and a shift and a cycle; a list longer than the copies.
fn copies_of_six<W: Write>(out: &mut W) -> io::Result<()> {
    say_copies(
        out,
        "a rack of 6, two shifts",
        &[6],
        &[Job::FREE, Job::FREE, Job::FREE, 2, Job::FREE, 1, Job::FREE],
        &mut [7; 4],
    )?;
    say_copies(
        out,
        "a rack of 6, a shift and a cycle",
        &[6],
        &[5, 2, 1, Job::FREE, Job::FREE, Job::FREE, Job::FREE],
        &mut [7; 8],
    )?;
    say_copies(
        out,
        "the same with a longer list",
        &[6],
        &[5, 2, 1, Job::FREE, Job::FREE, Job::FREE, Job::FREE],
        &mut [7; 11],
    )
}

// Nothing to copy, and what a copy list is refused with.
fn copies_refused<W: Write>(out: &mut W) -> io::Result<()> {
    say_copies(
        out,
        "nothing to copy",
        &[2],
        &[0, Job::FREE, Job::FREE],
        &mut [7; 0],
    )?;
    say_copies(
        out,
        "copies of case 1, cards away",
        &[2, 2, 1],
        &[3, 4, Job::FREE, 0, 6, Job::FREE, 1, Job::FREE],
        &mut [7; 10],
    )?;
    say_copies(
        out,
        "copies of case 3, a list too short",
        &[2],
        &[1, 0, Job::FREE],
        &mut [7; 5],
    )?;
    say_copies(
        out,
        "copies of a bad table",
        &[2],
        &[2, 2, Job::FREE],
        &mut [7; 6],
    )
}

fn shuffles<W: Write>(out: &mut W) -> io::Result<()> {
    let mut case_3 = Lent {
        caps: &[2],
        b: 1,
        places: &mut [1, 0, Job::FREE],
        cards: &mut [65, 66, 9],
    };
    say_shuffle(out, "shuffle of case 3", &mut case_3)?;
    let mut two_bytes = Lent {
        caps: &[2],
        b: 2,
        places: &mut [1, 0, Job::FREE],
        cards: &mut [65, 66, 67, 68, 9, 9],
    };
    say_shuffle(out, "shuffle of case 3, B 2", &mut two_bytes)
}

// What a shuffle is refused with.
fn shuffles_refused<W: Write>(out: &mut W) -> io::Result<()> {
    let mut case_5 = Lent {
        caps: &[1, 1],
        b: 1,
        places: &mut [2, 0, Job::FREE, Job::FREE],
        cards: &mut [65, 66, 9, 9],
    };
    say_shuffle(out, "shuffle of case 5, a card away", &mut case_5)?;
    let mut bad = Lent {
        caps: &[2],
        b: 1,
        places: &mut [1, 2, Job::FREE],
        cards: &mut [65, 66, 9],
    };
    say_shuffle(out, "shuffle of a table whose entry 1 is bad", &mut bad)?;
    let mut no_bytes = Lent {
        caps: &[2],
        b: 0,
        places: &mut [1, 0, Job::FREE],
        cards: &mut [65, 66, 9],
    };
    say_shuffle(out, "shuffle of case 3, B 0", &mut no_bytes)
}

fn whole_runs<W: Write>(out: &mut W) -> io::Result<()> {
    let mut case_1 = Lent {
        caps: &[2, 2, 1],
        b: 1,
        places: &mut [3, 4, Job::FREE, 0, 6, Job::FREE, 1, Job::FREE],
        cards: &mut [65, 66, 0, 67, 68, 0, 69, 0],
    };
    say_run(out, "run of case 1", &mut case_1)?;
    let mut case_4 = Lent {
        caps: &[1, 1],
        b: 1,
        places: &mut [2, Job::FREE, 0, Job::FREE],
        cards: &mut [65, 9, 66, 9],
    };
    say_run(out, "run of case 4", &mut case_4)?;
    let mut case_5 = Lent {
        caps: &[1, 1],
        b: 1,
        places: &mut [2, 0, Job::FREE, Job::FREE],
        cards: &mut [65, 66, 9, 9],
    };
    say_run(out, "run of case 5", &mut case_5)
}

// A run with nothing away, and the smallest job.
fn run_edges<W: Write>(out: &mut W) -> io::Result<()> {
    let mut case_3 = Lent {
        caps: &[2],
        b: 1,
        places: &mut [1, 0, Job::FREE],
        cards: &mut [65, 66, 9],
    };
    say_run(out, "run of case 3", &mut case_3)?;
    let mut case_10 = Lent {
        caps: &[0],
        b: 1,
        places: &mut [Job::FREE],
        cards: &mut [9],
    };
    say_run(out, "run of case 10", &mut case_10)
}

// What a run is refused with.
fn runs_refused<W: Write>(out: &mut W) -> io::Result<()> {
    let mut repeated = Lent {
        caps: &[1, 1],
        b: 1,
        places: &mut [2, Job::FREE, 2, Job::FREE],
        cards: &mut [65, 9, 66, 9],
    };
    say_run(out, "run of a table whose entry 2 repeats", &mut repeated)?;
    let mut short = Lent {
        caps: &[1, 1],
        b: 1,
        places: &mut [2, Job::FREE, 0, Job::FREE],
        cards: &mut [65, 9, 66],
    };
    say_run(out, "run of case 4, cards too short", &mut short)
}

pub fn run<W: Write>(out: &mut W) -> io::Result<()> {
    copies_of_cases(out)?;
    copies_of_six(out)?;
    copies_refused(out)?;
    shuffles(out)?;
    shuffles_refused(out)?;
    whole_runs(out)?;
    run_edges(out)?;
    runs_refused(out)
}
