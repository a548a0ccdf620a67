// What the whole run puts together: phases until nothing is awaited, then the shuffle.
ghost use Rattle.std.specs.Prelude.{◌≡◌, ◌*◌, ◌≤◌, length};
ghost use Rattle.answers.specs.Answers.{answered};
ghost use Rattle.racks.specs.Limits.{BYTES};
ghost use Rattle.racks.specs.Racks.{slots};
ghost use Rattle.racks.specs.parts.Legal.{Spared};
ghost use Rattle.racks.specs.Job.{racks_of, SoundSpared};
ghost use Rattle.tables.specs.parts.Tables.{Open};
ghost use Rattle.moves.specs.Moves.{held, outcome_of};
ghost use Rattle.runs.specs.parts.Ran.{Ran};
ghost use Rattle.runner.specs.parts.Ran.{ran_by};

use answers::{Refusal, Tally};
use factors::parts::walks;
use racks::Job;

// Phases until nothing is away, then the shuffle in the racking and the log, which are done with; gives the three counts.
pub fn run_cards(
    job: Job,
    b: usize,
    places: &mut [u16],
    cards: &mut [u8],
    racking: &mut [u8; Job::MAX_SLOTS],
) -> Tally
    requires { Open job places.old racking.old × Spared (racks_of job) × (length cards.old ≡ slots (racks_of job) * b) × (b ≤ BYTES) }
    ensures { Ran (racks_of job) b (held places.old cards.old) (held places.new cards.new) result }
{
    let mut log = [0u16; Job::PAIRS];
    let made = gathering::parts::make_phases(job, b, places, cards, racking, &mut log);
    walks::clear_sources(&mut log, places.len());
    shuffler::parts::settle(b, places, cards, racking, &mut log, made)
}

// The whole run, by the job.
pub fn run_job(job: &Job, b: usize, places: &mut [u16], cards: &mut [u8]) -> Result<Tally, Refusal>
    requires { SoundSpared job.now }
    ensures { outcome_of (answered result) places.new cards.new ≡ ran_by job.now b (held places.old cards.old) }
{
    let mut racking = [0u8; Job::MAX_SLOTS];
    tables::parts::check_cards(*job, b, places, cards, &mut racking)?;
    Ok(run_cards(*job, b, places, cards, &mut racking))
}
