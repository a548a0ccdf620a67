// Plans: the phase plan.
#![tactic(auto)]

ghost use Rattle.answers.specs.Answers.{answered};
ghost use Rattle.plans.specs.Plan.{PhasePlan};

use answers::{Refusal, Tally};
use racks::Job;

pub mod parts;

// Phase plan: the pairs of the present phase from the front of the lent list, two numbers each.
pub fn phase_plan(caps: &[u16], places: &[u16], lent: &mut [u16]) -> Result<Tally, Refusal>
    ensures { PhasePlan caps.now places.now lent.old (answered result) lent.new }
{
    let job = Job::of(caps)?;
    parts::plan_job(&job, places, lent)
}
