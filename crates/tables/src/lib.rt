// The table check.
#![tactic(auto)]

ghost use Rattle.answers.specs.Answers.{answer, refused, no_counts};
ghost use Rattle.tables.specs.Check.{CheckTable};

use answers::Refusal;
use racks::Job;

pub mod parts;

// Table check: done, or 1, 3, 4, 5 or 6; 5 and 6 with the place.
pub fn check_table(caps: &[u16], places: &[u16]) -> Result<(), Refusal>
    ensures { CheckTable caps.now places.now (answer (refused result) no_counts) }
{
    let job = Job::of(caps)?;
    parts::check_places(job, places)
}
