// The whole run.
#![tactic(auto)]

ghost use Rattle.answers.specs.Answers.{answered};
ghost use Rattle.moves.specs.Moves.{held, outcome_of};
ghost use Rattle.runs.specs.Run.{WholeRun};

use answers::{Refusal, Tally};
use racks::Job;

pub mod parts;

// Whole run: phases until nothing is away, then the shuffle.
pub fn whole_run(
    caps: &[u16],
    b: usize,
    places: &mut [u16],
    cards: &mut [u8],
) -> Result<Tally, Refusal>
    ensures { WholeRun caps.now b (held places.old cards.old) (outcome_of (answered result) places.new cards.new) }
{
    let job = Job::of_cards(caps, b)?;
    parts::run_job(&job, b, places, cards)
}
