// The engine that makes moves, phase by phase, as many as an allowance permits.
ghost use Rattle.std.specs.Prelude.{◌≡◌, ◌*◌, ◌<◌, length, get_or};
ghost use Rattle.answers.specs.Answers.{answered};
ghost use Rattle.racks.specs.Racks.{slots};
ghost use Rattle.racks.specs.parts.Legal.{Spared};
ghost use Rattle.racks.specs.Job.{racks_of, SoundSpared};
ghost use Rattle.tables.specs.parts.Tables.{Open};
ghost use Rattle.bits.specs.parts.Bits.{WORDS};
ghost use Rattle.queues.specs.parts.Line.{room_of, LINE};
ghost use Rattle.carrying.specs.parts.Carrying.{unflat};
ghost use Rattle.moves.specs.Moves.{held, outcome_of};
ghost use Rattle.budgets.specs.parts.Engine.{Notable, AllNotable, MoveNoted, Noted, Runnable, PhaseRun, Going, Made};
ghost use Rattle.budgets.specs.parts.Budgeted.{budgeted_by};

use answers::{Refusal, Tally};
use queues::parts::{arrivals, line};
use racks::Job;

// One move noted: its source is free now, and its rack has one free slot more; its target is not.
fn note_move(
    from: usize,
    to: usize,
    racking: &[u8; Job::MAX_SLOTS],
    line: &mut [u16; line::LINE],
    bits: &mut [u64; bits::parts::WORDS],
)
    requires { Notable racking.now (from, to) × (length line.old ≡ LINE) × (length bits.old ≡ WORDS) × (room_of line.old (get_or racking.now from 0) < 65535) }
    ensures { MoveNoted racking.now (from, to) line.old bits.old line.new bits.new }
{
    bits::parts::mark(bits, from);
    bits::parts::clear(bits, to);
    let k = line::ROOMS + racking[from] as usize;
    line[k] += 1;
}

// The moves of `pairs`, from and to of each, noted.
pub fn note_moves(
    pairs: &[u16],
    racking: &[u8; Job::MAX_SLOTS],
    line: &mut [u16; line::LINE],
    bits: &mut [u64; bits::parts::WORDS],
)
    requires { AllNotable racking.now (unflat pairs.now) line.old bits.old }
    ensures { Noted racking.now (unflat pairs.now) line.old bits.old line.new bits.new }
{
    for pair in pairs.chunks_exact(2) {
        note_move(pair[0] as usize, pair[1] as usize, racking, line, bits);
    }
}

// One phase: its pairs are planned behind what the log has, and as many of them carried as are left of k moves; gives the tally with these.
pub fn run_phase(
    ends: &[u16; Job::MAX_RACKS],
    b: usize,
    k: usize,
    tally: Tally,
    places: &mut [u16],
    cards: &mut [u8],
    racking: &[u8; Job::MAX_SLOTS],
    line: &mut [u16; line::LINE],
    bits: &mut [u64; bits::parts::WORDS],
    log: &mut [u16],
) -> Tally
    requires { Runnable ends.now b k tally (held places.old cards.old) racking.now line.old bits.old log.old }
    ensures { PhaseRun ends.now b k tally (held places.old cards.old) racking.now line.old bits.old log.old result (held places.new cards.new) line.new bits.new log.new }
{
    let low = 2 * tally.moves;
    let planned = pairing::parts::plan_phase(ends, line, bits, log, low);
    let made = planned.min(k - tally.moves);
    let high = low + 2 * made;
    let pairs = &log[low..high];
    let after = carrying::parts::carry(pairs, places, cards, b, tally);
    note_moves(pairs, racking, line, bits);
    after
}

// Phases until k moves are made or no rack waits; gives the tally of the moves.
pub fn run_moves(
    job: Job,
    b: usize,
    k: usize,
    places: &mut [u16],
    cards: &mut [u8],
    racking: &[u8; Job::MAX_SLOTS],
    line: &mut [u16; line::LINE],
    bits: &mut [u64; bits::parts::WORDS],
    log: &mut [u16],
) -> Tally
    requires { Going job b (held places.old cards.old) racking.now line.old bits.old log.old }
    ensures { Made (racks_of job) b k (held places.old cards.old) (held places.new cards.new) result }
{
    let mut tally = Tally::none();
    // Kept: a `for` would be no plainer, since it is not known how many moves a phase makes.
    while tally.moves < k && bits[line::WAITING] != 0 {
        tally = run_phase(
            &job.ends, b, k, tally, places, cards, racking, line, bits, log,
        );
    }
    tally
}

// The queues and free slots of a legal table, then phases with an allowance of k moves; gives the tally of the moves.
pub fn move_cards(
    job: Job,
    b: usize,
    k: usize,
    places: &mut [u16],
    cards: &mut [u8],
    racking: &[u8; Job::MAX_SLOTS],
) -> Tally
    requires { Open job places.old racking.now × Spared (racks_of job) × (length cards.old ≡ slots (racks_of job) * b) }
    ensures { Made (racks_of job) b k (held places.old cards.old) (held places.new cards.new) result }
{
    let mut line = [0u16; line::LINE];
    let mut bits = [0u64; bits::parts::WORDS];
    let mut log = [0u16; Job::PAIRS];
    arrivals::queue_up(job, places, racking, &mut line, &mut bits);
    run_moves(
        job, b, k, places, cards, racking, &mut line, &mut bits, &mut log,
    )
}

// Budgeted moves, by the job.
pub fn budget_job(
    job: &Job,
    b: usize,
    places: &mut [u16],
    cards: &mut [u8],
    k: usize,
) -> Result<Tally, Refusal>
    requires { SoundSpared job.now }
    ensures { outcome_of (answered result) places.new cards.new ≡ budgeted_by job.now b (held places.old cards.old) k }
{
    let mut racking = [0u8; Job::MAX_SLOTS];
    tables::parts::check_cards(*job, b, places, cards, &mut racking)?;
    Ok(move_cards(*job, b, k, places, cards, &racking))
}
