// One move: its check, and the move made.
ghost use Rattle.std.specs.Prelude.{◌≡◌};
ghost use Rattle.counting.specs.Checks.{first};
ghost use Rattle.answers.specs.Answers.{placeless, refused, answered};
ghost use Rattle.racks.specs.Job.{racks_of, Sound, JobOfCards};
ghost use Rattle.tables.specs.parts.Tables.{Open};
ghost use Rattle.moves.specs.Moves.{end_checks, held, outcome_of};
ghost use Rattle.mover.specs.parts.Moving.{moved_by, MoveChecked};

use answers::{Refusal, Tally};
use racks::Job;

// The job of a move, made in a frame of its own: so no copy of it is left on the stack of the check.
#[inline(never)]
pub(crate) fn job_for(caps: &[u16], b: usize) -> Result<Job, Refusal>
    ensures { JobOfCards caps.now b result }
{
    Job::of_cards(caps, b)
}

// 7 to 11 for a move on a legal table.
pub fn check_ends(
    job: &Job,
    places: &[u16],
    racking: &[u8; Job::MAX_SLOTS],
    from: usize,
    to: usize,
) -> Result<(), Refusal>
    requires { Open job.now places.now racking.now }
    ensures { refused result ≡ placeless (first (end_checks (racks_of job.now) places.now (from, to))) }
{
    if job.slots <= from {
        return Err(Refusal::NoSlot);
    }
    if job.slots <= to {
        return Err(Refusal::NoSlot);
    }
    let x = places[from];
    if x == Job::FREE {
        return Err(Refusal::SourceFree);
    }
    let there = racking[x as usize];
    if racking[from] == there {
        return Err(Refusal::SourceHome);
    }
    if racking[to] != there {
        return Err(Refusal::Elsewhere);
    }
    if places[to] != Job::FREE {
        return Err(Refusal::TargetTaken);
    }
    Ok(())
}

// The check of a move: 2 and 4 to 6 for the table and its cards, then 7 to 11.
fn check_move(
    job: &Job,
    b: usize,
    places: &[u16],
    cards: &[u8],
    from: usize,
    to: usize,
) -> Result<(), Refusal>
    requires { Sound job.now }
    ensures { MoveChecked job.now b (held places.now cards.now) (from, to) (refused result) }
{
    let mut racking = [0u8; Job::MAX_SLOTS];
    tables::parts::check_cards(*job, b, places, cards, &mut racking)?;
    check_ends(job, places, &racking, from, to)
}

// One move, by the job.
pub fn move_job(
    job: &Job,
    b: usize,
    places: &mut [u16],
    cards: &mut [u8],
    from: usize,
    to: usize,
) -> Result<Tally, Refusal>
    requires { Sound job.now }
    ensures { outcome_of (answered result) places.new cards.new ≡ moved_by job.now b (held places.old cards.old) (from, to) }
{
    check_move(job, b, places, cards, from, to)?;
    carrying::parts::move_card(places, cards, b, from, to);
    Ok(Tally::of_moves(1))
}
