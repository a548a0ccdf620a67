// Cases 2 and 9 through the call of budgeted moves, with the refusals of B and of a table.
#![tactic(auto)]

use racks::Job;
use saying::parts::Lent;
use std::io;
use std::io::Write;

fn say_budget<W: Write>(out: &mut W, name: &str, lent: &mut Lent, k: usize) -> io::Result<()> {
    let given = budgets::budgeted_moves(lent.caps, lent.b, lent.places, lent.cards, k);
    lent.say_left(out, name, given)
}

// Case 2 with k 0, then 4, then the largest k, then with nothing left.
fn budgets_in_turn<W: Write>(out: &mut W) -> io::Result<()> {
    let mut case_2 = Lent {
        caps: &[2, 2, 1],
        b: 1,
        places: &mut [3, 4, Job::FREE, 0, 6, Job::FREE, 1, Job::FREE],
        cards: &mut [65, 66, 0, 67, 68, 0, 69, 0],
    };
    say_budget(out, "case 2, k 0", &mut case_2, 0)?;
    say_budget(out, "case 2, k 4", &mut case_2, 4)?;
    say_budget(out, "and the largest k", &mut case_2, usize::MAX)?;
    say_budget(out, "nothing left", &mut case_2, 9)
}

// Case 2 anew with k 9.
fn budget_anew<W: Write>(out: &mut W) -> io::Result<()> {
    let mut case_2 = Lent {
        caps: &[2, 2, 1],
        b: 1,
        places: &mut [3, 4, Job::FREE, 0, 6, Job::FREE, 1, Job::FREE],
        cards: &mut [65, 66, 0, 67, 68, 0, 69, 0],
    };
    say_budget(out, "case 2, k 9", &mut case_2, 9)
}

// Case 9: two moves of two racks of one with another B.
fn budget_two<W: Write>(out: &mut W, name: &str, b: usize, cards: &mut [u8]) -> io::Result<()> {
    let mut two = Lent {
        caps: &[1, 1],
        b,
        places: &mut [2, Job::FREE, 0, Job::FREE],
        cards,
    };
    say_budget(out, name, &mut two, 2)
}

// A table that is refused, whatever k is.
fn budget_bad<W: Write>(out: &mut W) -> io::Result<()> {
    let mut bad = Lent {
        caps: &[1, 1],
        b: 1,
        places: &mut [2, Job::FREE, 0, 1],
        cards: &mut [65, 0, 66, 67],
    };
    say_budget(out, "a spare named by the last slot", &mut bad, 0)
}

// B 256 is accepted, 257 and 0 are not.
fn sizes<W: Write>(out: &mut W) -> io::Result<()> {
    budget_two(out, "B 256", 256, &mut [1; 1024])?;
    budget_two(out, "B 257", 257, &mut [1; 1028])?;
    budget_two(out, "B 0", 0, &mut [1; 0])
}

fn main(rt: HostRuntime) -> io::Result<()> {
    let out = &mut io::writer(&rt);
    budgets_in_turn(out)?;
    budget_anew(out)?;
    budget_bad(out)?;
    sizes(out)
}
