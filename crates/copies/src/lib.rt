// The copy list.
#![tactic(auto)]

ghost use Rattle.answers.specs.Answers.{answered};
ghost use Rattle.factors.specs.Copies.{CopyList};

use answers::{Refusal, Tally};
use racks::Job;

pub mod parts;

// Copy list: each copy as two numbers, from the front of the lent list.
pub fn copy_list(caps: &[u16], places: &[u16], lent: &mut [u16]) -> Result<Tally, Refusal>
    ensures { CopyList caps.now places.now lent.old (answered result) lent.new }
{
    let job = Job::of(caps)?;
    parts::copy_job(&job, places, lent)
}
