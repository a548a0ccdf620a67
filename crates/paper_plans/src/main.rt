// Cases 1, 4 and 5 through the call that plans, with the refusals of its list.
#![tactic(auto)]

use racks::Job;
use saying::parts::{say_answer, say_numbers};
use std::io;
use std::io::Write;

fn say_plan<W: Write>(
    out: &mut W,
    name: &str,
    caps: &[u16],
    places: &[u16],
    lent: &mut [u16],
) -> io::Result<()> {
    let given = planner::phase_plan(caps, places, lent);
    say_answer(out, name, given)?;
    say_numbers(out, "pairs", lent)?;
    writeln!(out)
}

// Plans of case 1 into a list too short, exactly long enough, and longer.
fn plan_case1<W: Write>(out: &mut W, name: &str, lent: &mut [u16]) -> io::Result<()> {
    let caps = [2u16, 2, 1];
    let places = [3u16, 4, Job::FREE, 0, 6, Job::FREE, 1, Job::FREE];
    say_plan(out, name, &caps, &places, lent)
}

fn plans_of_case1<W: Write>(out: &mut W) -> io::Result<()> {
    plan_case1(out, "plan of case 1, a list too short", &mut [7; 5])?;
    plan_case1(out, "plan of case 1, exactly long enough", &mut [7; 6])?;
    plan_case1(out, "plan of case 1, a longer list", &mut [7; 8])
}

// A plan of two racks of one, into a list for two pairs.
fn plan_two<W: Write>(out: &mut W, name: &str, places: &[u16]) -> io::Result<()> {
    let caps = [1u16, 1];
    say_plan(out, name, &caps, places, &mut [7; 4])
}

fn plans_of_two<W: Write>(out: &mut W) -> io::Result<()> {
    plan_two(out, "plan of case 4", &[2, Job::FREE, 0, Job::FREE])?;
    plan_two(out, "plan of case 5", &[2, 0, Job::FREE, Job::FREE])?;
    plan_two(out, "a spare holds a card", &[Job::FREE, 2, Job::FREE, 0])?;
    plan_two(out, "a bad table to plan", &[3, Job::FREE, 0, Job::FREE])?;
    plan_two(
        out,
        "a slot named twice to plan",
        &[2, Job::FREE, 2, Job::FREE],
    )
}

// Plans with nothing away, with a rack of none; refused.
fn plan_edges<W: Write>(out: &mut W) -> io::Result<()> {
    say_plan(out, "nothing away", &[2], &[1, 0, Job::FREE], &mut [7; 0])?;
    say_plan(
        out,
        "a rack of none",
        &[0, 1],
        &[1, Job::FREE, Job::FREE],
        &mut [7; 2],
    )?;
    say_plan(out, "no racks to plan", &[], &[], &mut [7; 2])
}

fn main(rt: HostRuntime) -> io::Result<()> {
    let out = &mut io::writer(&rt);
    plans_of_case1(out)?;
    plans_of_two(out)?;
    plan_edges(out)
}
