// Budgeted moves.
#![tactic(auto)]

ghost use Rattle.answers.specs.Answers.{answered};
ghost use Rattle.moves.specs.Phases.{BudgetedMoves};
ghost use Rattle.moves.specs.Moves.{held, outcome_of};

use answers::{Refusal, Tally};
use racks::Job;

pub mod parts;

// Budgeted moves: at most k, the present phase's pairs in plan order, a new plan when they are used up.
pub fn budgeted_moves(
    caps: &[u16],
    b: usize,
    places: &mut [u16],
    cards: &mut [u8],
    k: usize,
) -> Result<Tally, Refusal>
    ensures { BudgetedMoves caps.now b (held places.old cards.old) k (outcome_of (answered result) places.new cards.new) }
{
    let job = Job::of_cards(caps, b)?;
    parts::budget_job(&job, b, places, cards, k)
}
