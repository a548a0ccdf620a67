// The phases of a run put together: its tables made, then phases until nothing is awaited.
ghost use Rattle.std.specs.Prelude.{◌≡◌, ◌*◌, ◌≤◌, length};
ghost use Rattle.racks.specs.Limits.{PAIRS};
ghost use Rattle.racks.specs.Racks.{slots};
ghost use Rattle.racks.specs.parts.Legal.{Spared};
ghost use Rattle.racks.specs.Job.{racks_of};
ghost use Rattle.tables.specs.parts.Tables.{Open};
ghost use Rattle.moves.specs.Moves.{held};
ghost use Rattle.gathering.specs.parts.Gathered.{PhasesMade};

use answers::Tally;
use queues::parts::{arrivals, line};
use racks::Job;

pub mod rounds;

// All phases of a legal table with its cards, logged: the tables of a run, made and lent; gives the counts of phases and moves.
pub fn make_phases(
    job: Job,
    b: usize,
    places: &mut [u16],
    cards: &mut [u8],
    racking: &[u8; Job::MAX_SLOTS],
    log: &mut [u16],
) -> Tally
    requires { Open job places.old racking.now × Spared (racks_of job) × (length cards.old ≡ slots (racks_of job) * b) × (PAIRS ≤ length log.old) }
    ensures { PhasesMade (racks_of job) b (held places.old cards.old) (held places.new cards.new) result log.new }
{
    let mut line = [0u16; line::LINE];
    let mut bits = [0u64; bits::parts::WORDS];
    let mut owes = [0u16; Job::CELLS];
    owed::parts::count_owed(job, places, racking, &mut owes);
    arrivals::queue_up(job, places, racking, &mut line, &mut bits);
    let mut awaits = owes;
    rounds::run_phases(
        job,
        b,
        places,
        cards,
        racking,
        &mut line,
        &mut bits,
        log,
        &mut owes,
        &mut awaits,
    )
}
