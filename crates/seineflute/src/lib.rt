// Seineflute for callers from C and Rust: every public call with the numbers that C is given, thin over the layers.
// The contracts are the layers' own, with the answer read from those numbers. The crate seineflute_c gives each call C's calling convention.
#![tactic(auto)]

ghost use Rattle.tables.specs.Check.{CheckTable};
ghost use Rattle.plans.specs.Plan.{PhasePlan};
ghost use Rattle.moves.specs.Moves.{OneMove, held, outcome_of};
ghost use Rattle.moves.specs.Phases.{BudgetedMoves};
ghost use Rattle.factors.specs.Copies.{CopyList};
ghost use Rattle.shuffle.specs.Shuffle.{ShuffleCards};
ghost use Rattle.runs.specs.Run.{WholeRun};
ghost use Rattle.jobfile.specs.Answers.{ReadFile};
ghost use Rattle.jobwriter.specs.Writing.{WriteFile};
ghost use Rattle.listing.specs.Listing.{ListJob};
ghost use Rattle.flat.specs.Flat.{answer_of, file_of, size_of};
ghost use Rattle.seineflute.specs.Promises.{LimitsGiven, SlotNumbers};

use flat::{Answer, FileAnswer, SizeAnswer, SlotAnswer};
use racks::Job;

// Every limit and mark, as the library has it: racks, bytes of a card, user slots of a rack and of all racks, slots; a free slot, the hand;
// bytes of a file that is listed, and bytes that are enough for every text.
#[repr(C)]
#[derive(Clone, Copy)]
pub struct Limits {
    pub racks: usize,
    pub bytes: usize,
    pub users: usize,
    pub total: usize,
    pub slots: usize,
    pub free: usize,
    pub hand: usize,
    pub file: usize,
    pub enough: usize,
}

// Limits and marks.
pub fn seineflute_limits() -> Limits
    ensures { LimitsGiven result }
{
    Limits {
        racks: Job::MAX_RACKS,
        bytes: Job::MAX_BYTES,
        users: Job::MAX_USERS,
        total: Job::MAX_TOTAL,
        slots: Job::MAX_SLOTS,
        free: Job::FREE as usize,
        hand: Job::HAND as usize,
        file: texts::FILE,
        enough: texts::ENOUGH,
    }
}

// Table check.
pub fn seineflute_check_table(caps: &[u16], places: &[u16]) -> Answer
    ensures { CheckTable caps.now places.now (answer_of result) }
{
    Answer::from(tables::check_table(caps, places))
}

// Slot question.
pub fn seineflute_slot_question(caps: &[u16], places: &[u16], slot: usize) -> SlotAnswer
    ensures { SlotNumbers caps.now places.now slot result }
{
    SlotAnswer::from(slots::slot_question(caps, places, slot))
}

// Phase plan.
pub fn seineflute_phase_plan(caps: &[u16], places: &[u16], lent: &mut [u16]) -> Answer
    ensures { PhasePlan caps.now places.now lent.old (answer_of result) lent.new }
{
    Answer::from(planner::phase_plan(caps, places, lent))
}

// One move.
pub fn seineflute_one_move(
    caps: &[u16],
    b: usize,
    places: &mut [u16],
    cards: &mut [u8],
    from: usize,
    to: usize,
) -> Answer
    ensures { OneMove caps.now b (held places.old cards.old) (from, to) (outcome_of (answer_of result) places.new cards.new) }
{
    Answer::from(mover::one_move(caps, b, places, cards, from, to))
}

// Budgeted moves.
pub fn seineflute_budgeted_moves(
    caps: &[u16],
    b: usize,
    places: &mut [u16],
    cards: &mut [u8],
    k: usize,
) -> Answer
    ensures { BudgetedMoves caps.now b (held places.old cards.old) k (outcome_of (answer_of result) places.new cards.new) }
{
    Answer::from(budgets::budgeted_moves(caps, b, places, cards, k))
}

// Copy list.
pub fn seineflute_copy_list(caps: &[u16], places: &[u16], lent: &mut [u16]) -> Answer
    ensures { CopyList caps.now places.now lent.old (answer_of result) lent.new }
{
    Answer::from(copies::copy_list(caps, places, lent))
}

// Shuffle.
pub fn seineflute_shuffle_cards(
    caps: &[u16],
    b: usize,
    places: &mut [u16],
    cards: &mut [u8],
) -> Answer
    ensures { ShuffleCards caps.now b (held places.old cards.old) (outcome_of (answer_of result) places.new cards.new) }
{
    Answer::from(shuffler::shuffle_cards(caps, b, places, cards))
}

// Whole run.
pub fn seineflute_whole_run(caps: &[u16], b: usize, places: &mut [u16], cards: &mut [u8]) -> Answer
    ensures { WholeRun caps.now b (held places.old cards.old) (outcome_of (answer_of result) places.new cards.new) }
{
    Answer::from(runner::whole_run(caps, b, places, cards))
}

// Job file. A struct with a reference has no form in C, so the caller takes the card bytes from their start on.
pub fn seineflute_read_file(file: &[u8], caps: &mut [u16], places: &mut [u16]) -> FileAnswer
    ensures { ReadFile file.now caps.old places.old (file_of result) caps.new places.new }
{
    FileAnswer::from(jobfile::read_file(file, caps, places))
}

// Write file.
pub fn seineflute_write_file(
    caps: &[u16],
    b: usize,
    places: &[u16],
    cards: &[u8],
    out: &mut [u8],
) -> SizeAnswer
    ensures { WriteFile caps.now b places.now cards.now out.old (size_of result) out.new }
{
    SizeAnswer::from(jobwriter::write_file(caps, b, places, cards, out))
}

// The listing.
pub fn seineflute_list_job(file: &[u8], out: &mut [u8]) -> SizeAnswer
    ensures { ListJob file.now out.old (size_of result) out.new }
{
    SizeAnswer::from(listing::list_job(file, out))
}
