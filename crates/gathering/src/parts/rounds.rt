// Phases until nothing is awaited.
ghost use Rattle.std.specs.Prelude.{◌≡◌, ◌+◌, ◌≤◌, ◌<◌, set};
ghost use Rattle.racks.specs.Limits.{SLOTS};
ghost use Rattle.racks.specs.Job.{racks_of};
ghost use Rattle.moves.specs.Moves.{held};
ghost use Rattle.gathering.specs.parts.Gathered as defined;
ghost use Rattle.gathering.specs.parts.Gathered.{Closable, RoundClosed, Set, PhasesMade};

use answers::Tally;
use queues::parts::line;
use racks::Job;

// Where in a run's log the moves made up to each phase's end stand, behind all pairs.
pub const ENDS: usize = 8192;

// How many numbers a run's log has where it is to be listed: all pairs and all ends.
pub const LOG: usize = 12288;

// The places of the code are those of the definitions.
pub fn log_agrees()
    ensures ends { defined.ENDS ≡ ENDS }
    ensures log { defined.LOG ≡ LOG }
{}

// The moves made up to the end of phase j, noted where the log has room for it: none but a listing reads the ends.
fn note_end(log: &mut [u16], j: usize, moves: usize)
    requires { (j < SLOTS) × (moves ≤ SLOTS) }
    ensures { log.new ≡ set log.old (defined.ENDS + j) moves }
{
    let k = ENDS + j;
    if k < log.len() {
        log[k] = moves as u16;
    }
}

// Closes a phase: the moves made since the tally before it are paid for in both tables, and its end is noted in the log; gives the tally with one
// phase more.
fn close_round(
    before: Tally,
    made: Tally,
    racking: &[u8; Job::MAX_SLOTS],
    log: &mut [u16],
    owes: &mut [u16; Job::CELLS],
    awaits: &mut [u16; Job::CELLS],
) -> Tally
    requires { Closable before made racking.now log.old owes.old awaits.old }
    ensures { RoundClosed before made racking.now log.old owes.old awaits.old result log.new owes.new awaits.new }
{
    let low = 2 * before.moves;
    let high = 2 * made.moves;
    owed::parts::pay_moves(&log[low..high], racking, owes, awaits);
    note_end(log, before.phases, made.moves);
    made.add_phase()
}

// Phases until nothing is awaited; gives the counts of phases and moves.
pub fn run_phases(
    job: Job,
    b: usize,
    places: &mut [u16],
    cards: &mut [u8],
    racking: &[u8; Job::MAX_SLOTS],
    line: &mut [u16; line::LINE],
    bits: &mut [u64; bits::parts::WORDS],
    log: &mut [u16],
    owes: &mut [u16; Job::CELLS],
    awaits: &mut [u16; Job::CELLS],
) -> Tally
    requires { Set job b (held places.old cards.old) racking.now line.old bits.old log.old owes.old awaits.old }
    ensures { PhasesMade (racks_of job) b (held places.old cards.old) (held places.new cards.new) result log.new }
{
    let cells = job.racks * Job::MAX_RACKS;
    let mut tally = Tally::none();
    let mut cell = owed::parts::next_awaited(awaits, 0, cells);
    // Kept: a `for` over the cells would be no plainer, since the cursor stays at a cell until nothing is awaited there.
    while cell < cells {
        let made = budgets::parts::run_phase(
            &job.ends,
            b,
            Job::MAX_SLOTS,
            tally,
            places,
            cards,
            racking,
            line,
            bits,
            log,
        );
        tally = close_round(tally, made, racking, log, owes, awaits);
        cell = owed::parts::next_awaited(awaits, cell, cells);
    }
    tally
}
