// What the phase plan puts together.
ghost use Rattle.std.specs.Prelude.{◌≡◌, ◌*◌, ◌≤◌, length};
ghost use Rattle.answers.specs.Answers.{answered, listed_of};
ghost use Rattle.racks.specs.Job.{racks_of, Sound};
ghost use Rattle.racks.specs.parts.Legal.{Legal};
ghost use Rattle.plans.specs.Plan.{plan};
ghost use Rattle.planner.specs.parts.Targets.{Covers, PairsPut};
ghost use Rattle.planner.specs.parts.Planned.{planned_by};

use answers::{Refusal, Tally};
use racks::Job;
use spans::parts::Range;

pub mod targets;

// How many pairs the plan of a legal table has.
pub fn count_pairs(job: Job, places: &[u16]) -> usize
    requires { Sound job × Legal (racks_of job) places.now }
    ensures { result ≡ length (plan (racks_of job) places.now) }
{
    let mut pairs: usize = 0;
    let mut low: u16 = 0;
    for p in 0..job.racks {
        let high = job.ends[p];
        pairs += targets::count_target(places, low, high);
        low = high;
    }
    pairs
}

// A number that the pairs of the plan of a legal table do not exceed, and theirs exactly where a list of `room` numbers is too short for that
// many pairs. A plan has no more pairs than there are free slots, so only for a list that has no room for as many the pairs are counted.
pub fn most_pairs(job: Job, places: &[u16], room: usize) -> usize
    requires { Sound job × Legal (racks_of job) places.now }
    ensures { Covers (length (plan (racks_of job) places.now)) room result }
{
    let free = spans::parts::look(places, 0, job.slots as u16, Range::free());
    let most = free.count as usize;
    if 2 * most <= room {
        return most;
    }
    count_pairs(job, places)
}

// The pairs of the plan of a legal table, which are no more than `most`, from the front of the list; how many they are.
pub fn write_plan(job: Job, places: &[u16], lent: &mut [u16], most: usize) -> usize
    requires { Sound job × Legal (racks_of job) places.now × (length (plan (racks_of job) places.now) ≤ most) × (2 * most ≤ length lent.old) }
    ensures { PairsPut lent.old 0 (plan (racks_of job) places.now) result lent.new }
{
    let mut pairs: usize = 0;
    let mut low: u16 = 0;
    for p in 0..job.racks {
        let high = job.ends[p];
        pairs = targets::put_target(places, low, high, lent, pairs, most);
        low = high;
    }
    pairs
}

// The phase plan, by the job.
pub fn plan_job(job: &Job, places: &[u16], lent: &mut [u16]) -> Result<Tally, Refusal>
    requires { Sound job.now }
    ensures { listed_of (answered result) lent.new ≡ planned_by job.now places.now lent.old }
{
    tables::parts::check_places(*job, places)?;
    let most = most_pairs(*job, places, lent.len());
    if lent.len() < 2 * most {
        return Err(Refusal::TooShort);
    }
    let written = write_plan(*job, places, lent, most);
    Ok(Tally::of_moves(written))
}
