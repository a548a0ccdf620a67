// The static library: every call of seineflute with C's calling convention. C knows an export by its name, so each has the name of the call that it
// makes, and that call's contract word for word. Nothing else is in it.
#![tactic(auto)]

ghost use Rattle.tables.specs.Check.{CheckTable};
ghost use Rattle.plans.specs.Plan.{PhasePlan};
ghost use Rattle.moves.specs.Moves.{OneMove, held, outcome_of};
ghost use Rattle.moves.specs.Phases.{BudgetedMoves};
ghost use Rattle.factors.specs.Copies.{CopyList};
ghost use Rattle.shuffle.specs.Shuffle.{ShuffleCards};
ghost use Rattle.runs.specs.Run.{WholeRun};
ghost use Rattle.jobfile.specs.Answers.{ReadFile};
ghost use Rattle.jobwriter.specs.Writing.{WriteFile};
ghost use Rattle.listing.specs.Listing.{ListJob};
ghost use Rattle.flat.specs.Flat.{answer_of, file_of, size_of};
ghost use Rattle.seineflute.specs.Promises.{LimitsGiven, SlotNumbers};

use flat::{Answer, FileAnswer, SizeAnswer, SlotAnswer};
use seineflute::Limits;

// Limits and marks.
#[unsafe(no_mangle)]
pub extern "C" fn seineflute_limits() -> Limits
    ensures { LimitsGiven result }
{
    seineflute::seineflute_limits()
}

// Table check.
#[unsafe(no_mangle)]
pub extern "C" fn seineflute_check_table(caps: &[u16], places: &[u16]) -> Answer
    ensures { CheckTable caps.now places.now (answer_of result) }
{
    seineflute::seineflute_check_table(caps, places)
}

// Slot question.
#[unsafe(no_mangle)]
pub extern "C" fn seineflute_slot_question(caps: &[u16], places: &[u16], slot: usize) -> SlotAnswer
    ensures { SlotNumbers caps.now places.now slot result }
{
    seineflute::seineflute_slot_question(caps, places, slot)
}

// Phase plan.
#[unsafe(no_mangle)]
pub extern "C" fn seineflute_phase_plan(caps: &[u16], places: &[u16], lent: &mut [u16]) -> Answer
    ensures { PhasePlan caps.now places.now lent.old (answer_of result) lent.new }
{
    seineflute::seineflute_phase_plan(caps, places, lent)
}

// One move.
#[unsafe(no_mangle)]
pub extern "C" fn seineflute_one_move(
    caps: &[u16],
    b: usize,
    places: &mut [u16],
    cards: &mut [u8],
    from: usize,
    to: usize,
) -> Answer
    ensures { OneMove caps.now b (held places.old cards.old) (from, to) (outcome_of (answer_of result) places.new cards.new) }
{
    seineflute::seineflute_one_move(caps, b, places, cards, from, to)
}

// Budgeted moves.
#[unsafe(no_mangle)]
pub extern "C" fn seineflute_budgeted_moves(
    caps: &[u16],
    b: usize,
    places: &mut [u16],
    cards: &mut [u8],
    k: usize,
) -> Answer
    ensures { BudgetedMoves caps.now b (held places.old cards.old) k (outcome_of (answer_of result) places.new cards.new) }
{
    seineflute::seineflute_budgeted_moves(caps, b, places, cards, k)
}

// Copy list.
#[unsafe(no_mangle)]
pub extern "C" fn seineflute_copy_list(caps: &[u16], places: &[u16], lent: &mut [u16]) -> Answer
    ensures { CopyList caps.now places.now lent.old (answer_of result) lent.new }
{
    seineflute::seineflute_copy_list(caps, places, lent)
}

// Shuffle.
#[unsafe(no_mangle)]
pub extern "C" fn seineflute_shuffle_cards(
    caps: &[u16],
    b: usize,
    places: &mut [u16],
    cards: &mut [u8],
) -> Answer
    ensures { ShuffleCards caps.now b (held places.old cards.old) (outcome_of (answer_of result) places.new cards.new) }
{
    seineflute::seineflute_shuffle_cards(caps, b, places, cards)
}

// Whole run.
#[unsafe(no_mangle)]
pub extern "C" fn seineflute_whole_run(
    caps: &[u16],
    b: usize,
    places: &mut [u16],
    cards: &mut [u8],
) -> Answer
    ensures { WholeRun caps.now b (held places.old cards.old) (outcome_of (answer_of result) places.new cards.new) }
{
    seineflute::seineflute_whole_run(caps, b, places, cards)
}

// Job file. A struct with a reference has no form in C, so the caller takes the card bytes from their start on.
#[unsafe(no_mangle)]
pub extern "C" fn seineflute_read_file(
    file: &[u8],
    caps: &mut [u16],
    places: &mut [u16],
) -> FileAnswer
    ensures { ReadFile file.now caps.old places.old (file_of result) caps.new places.new }
{
    seineflute::seineflute_read_file(file, caps, places)
}

// Write file.
#[unsafe(no_mangle)]
pub extern "C" fn seineflute_write_file(
    caps: &[u16],
    b: usize,
    places: &[u16],
    cards: &[u8],
    out: &mut [u8],
) -> SizeAnswer
    ensures { WriteFile caps.now b places.now cards.now out.old (size_of result) out.new }
{
    seineflute::seineflute_write_file(caps, b, places, cards, out)
}

// The listing.
#[unsafe(no_mangle)]
pub extern "C" fn seineflute_list_job(file: &[u8], out: &mut [u8]) -> SizeAnswer
    ensures { ListJob file.now out.old (size_of result) out.new }
{
    seineflute::seineflute_list_job(file, out)
}
