// Paper cards that are not [P]: cases 9 and 10, and refusals of the table check and the slot question.
#![tactic(auto)]

use racks::Job;
use saying::parts::say_uncounted;
use slots::{Kind, State};
use std::io;
use std::io::Write;

fn say_check<W: Write>(out: &mut W, name: &str, caps: &[u16], places: &[u16]) -> io::Result<()> {
    say_uncounted(out, name, &tables::check_table(caps, places))?;
    writeln!(out)
}

fn say_kind<W: Write>(out: &mut W, kind: Kind) -> io::Result<()> {
    match kind {
        Kind::User => write!(out, " user slot"),
        Kind::Spare => write!(out, " spare"),
    }
}

fn say_state<W: Write>(out: &mut W, state: State) -> io::Result<()> {
    match state {
        State::Free => writeln!(out, " free"),
        State::Settled => writeln!(out, " settled"),
        State::Unsettled => writeln!(out, " unsettled"),
        State::Away(p) => writeln!(out, " away to {p}"),
    }
}

fn say_slot<W: Write>(
    out: &mut W,
    name: &str,
    caps: &[u16],
    places: &[u16],
    g: usize,
) -> io::Result<()> {
    let given = slots::slot_question(caps, places, g);
    say_uncounted(out, name, &given)?;
    let Ok(slot) = given else {
        return writeln!(out, " none none");
    };
    say_kind(out, slot.kind)?;
    say_state(out, slot.state)
}

fn full_house<W: Write>(out: &mut W) -> io::Result<()> {
    let mut caps = [63u16; Job::MAX_RACKS];
    let places = [Job::FREE; Job::MAX_SLOTS];
    say_check(out, "64 racks of 63", &caps, &places)?;
    caps[7] = 64;
    say_check(out, "one of them 64", &caps, &places)?;
    say_check(out, "one rack of 1,023", &[1023], &places[..1024])?;
    say_check(out, "one rack of 1,024", &[1024], &places[..1025])?;
    say_check(out, "four racks of 1,008", &[1008; 4], &places[..4036])?;
    say_check(out, "four racks of 1,023", &[1023; 4], &places)?;
    say_check(out, "one rack of none", &[0], &places[..1])?;
    say_check(out, "64 racks of none", &[0u16; 64], &places[..64])?;
    say_check(out, "4,096 racks", &[0u16; 4096], &places)
}

fn refusals<W: Write>(out: &mut W) -> io::Result<()> {
    let two = [1u16, 1];
    let places = [Job::FREE; 130];
    say_check(out, "no racks", &[], &places[..0])?;
    say_check(out, "65 racks", &[1u16; 65], &places)?;
    say_check(out, "places too short", &two, &places[..3])?;
    say_check(out, "places too long", &two, &places[..5])?;
    say_check(out, "a spare named", &two, &[3, Job::FREE, 0, Job::FREE])?;
    say_check(out, "no slot named", &two, &[4, Job::FREE, 0, Job::FREE])?;
    say_check(
        out,
        "the hand in a table",
        &two,
        &[Job::HAND, Job::FREE, 0, Job::FREE],
    )?;
    say_check(
        out,
        "a slot named twice",
        &two,
        &[0, Job::FREE, 0, Job::FREE],
    )?;
    say_check(out, "5 behind a 6", &two, &[0, 0, Job::FREE, 1])?;
    say_check(out, "65 racks and one too large", &[1024u16; 65], &places)
}

// Several bad and several doubled entries: the lowest bad one, and the lowest that repeats an earlier one.
fn lowest_places<W: Write>(out: &mut W) -> io::Result<()> {
    let caps = [2u16, 2, 1];
    say_check(
        out,
        "three bad entries",
        &caps,
        &[0, Job::FREE, 7, 5, 6, Job::FREE, 8, Job::FREE],
    )?;
    say_check(
        out,
        "three that name slot 3",
        &caps,
        &[Job::FREE, 3, 1, Job::FREE, 3, Job::FREE, 3, Job::FREE],
    )?;
    say_check(
        out,
        "two slots named twice",
        &caps,
        &[6, 0, 4, 4, Job::FREE, Job::FREE, Job::FREE, 6],
    )?;
    say_check(
        out,
        "the last entry bad",
        &caps,
        &[3, 4, Job::FREE, 0, 6, Job::FREE, 1, 2],
    )
}

fn questions<W: Write>(out: &mut W) -> io::Result<()> {
    let one = [2u16];
    let settled = [0u16, Job::FREE, 1];
    let caps = [2u16, 2, 1];
    let places = [3u16, 4, Job::FREE, 0, 6, Job::FREE, 1, Job::FREE];
    say_slot(out, "slot 0 of case 1", &caps, &places, 0)?;
    say_slot(out, "slot 2 of case 1", &caps, &places, 2)?;
    say_slot(out, "slot 4 of case 1", &caps, &places, 4)?;
    say_slot(out, "slot 8 of case 1", &caps, &places, 8)?;
    say_slot(
        out,
        "the highest number as a slot",
        &caps,
        &places,
        usize::MAX,
    )?;
    say_slot(out, "slot 0, settled", &one, &settled, 0)?;
    say_slot(out, "a card in a spare", &one, &settled, 2)?;
    say_slot(out, "a slot of a bad table", &one, &[2, Job::FREE, 1], 0)?;
    say_slot(out, "a slot of no racks", &[], &places, 0)
}

fn main(rt: HostRuntime) -> io::Result<()> {
    let out = &mut io::writer(&rt);
    full_house(out)?;
    refusals(out)?;
    lowest_places(out)?;
    questions(out)
}
