// Whole texts: of the copies, of a run.
ghost use Rattle.std.specs.Prelude.{◌≡◌, ◌*◌, ◌≤◌, length};
ghost use Rattle.counting.specs.Checks.{first};
ghost use Rattle.racks.specs.Limits.{BYTES};
ghost use Rattle.racks.specs.Racks.{of_caps, slots};
ghost use Rattle.racks.specs.parts.Legal.{Spared};
ghost use Rattle.racks.specs.Numbers.{card_checks};
ghost use Rattle.racks.specs.Job.{racks_of};
ghost use Rattle.tables.specs.parts.Tables.{Open};
ghost use Rattle.moves.specs.Moves.{held};
ghost use Rattle.factors.specs.Copies.{copy_list};
ghost use Rattle.factors.specs.parts.Chains.{Chained};
ghost use Rattle.factors.specs.parts.Walks.{LISTED, SomeMarked, Unmarked};
ghost use Rattle.texts.specs.Lines.{copies_line};
ghost use Rattle.texts.specs.parts.Writing.{Reaches, Wrote};
ghost use Rattle.runtexts.specs.RunText.{FILE, run_text};

use crate::parts::phasing;
use answers::Tally;
use factors::parts::walks;
use racks::Job;
use texts::parts::{lines, words};

// The line of the copy list of a table with nothing away; the list is made in a lent one. Marks of other kinds stay.
pub fn put_copy_list(
    out: &mut [u8],
    at: usize,
    places: &[u16],
    seen: &mut [u8; Job::MAX_SLOTS],
    list: &mut [u16],
) -> usize
    requires { Chained places.now × Unmarked places.now LISTED seen.old × (2 * length (copy_list places.now) ≤ length list.old) × Reaches (copies_line (copy_list places.now)) at out.old }
    ensures text { Wrote (copies_line (copy_list places.now)) out.old at out.new result }
    ensures marks { SomeMarked LISTED seen.old seen.new }
{
    let none = Tally::none();
    let tally = copies::parts::list_copies(places, seen, list, none);
    lines::put_copies(out, at, &list[..2 * tally.copies])
}

// The text of a run: phases, copies, cards, end. The phases are listed from the run's log, which then has room for the copy list, and for the
// shuffle's sources after it; the racking serves both as marks.
pub fn put_run(
    out: &mut [u8],
    job: Job,
    b: usize,
    places: &mut [u16],
    cards: &mut [u8],
    racking: &mut [u8; Job::MAX_SLOTS],
) -> usize
    requires { Open job places.old racking.old × Spared (racks_of job) × (length cards.old ≡ slots (racks_of job) * b) × (b ≤ BYTES) × Reaches (run_text (racks_of job) b (held places.old cards.old)) 0 out.old }
    ensures { Wrote (run_text (racks_of job) b (held places.old cards.old)) out.old 0 out.new result }
{
    let mut log = [0u16; gathering::parts::rounds::LOG];
    let made = gathering::parts::make_phases(job, b, places, cards, racking, &mut log);
    let mut next = phasing::put_phases(out, &log, made.phases);
    next = put_copy_list(out, next, places, racking, &mut log);
    walks::clear_sources(&mut log, places.len());
    let tally = shuffler::parts::settle(b, places, cards, racking, &mut log, made);
    next = lines::put_cards(out, next, places.len(), b, cards);
    lines::put_end(out, next, tally)
}

// The text of the run of a legal job: its cards are copied, since the file is only lent.
pub fn put_job(out: &mut [u8], caps: &[u16], b: usize, places: &mut [u16], bytes: &[u8]) -> usize
    requires { (first (card_checks (of_caps caps.now) b places.old bytes.now) ≡ 0) × (length bytes.now ≤ FILE) × Reaches (run_text (of_caps caps.now) b (held places.old bytes.now)) 0 out.old }
    ensures { Wrote (run_text (of_caps caps.now) b (held places.old bytes.now)) out.old 0 out.new result }
{
    let mut cards = [0u8; texts::FILE];
    let size = words::put_text(&mut cards, 0, bytes);
    let job = racks::parts::job_of(caps);
    let mut racking = [0u8; Job::MAX_SLOTS];
    tables::parts::fill_racking(job, &mut racking);
    put_run(out, job, b, places, &mut cards[..size], &mut racking)
}
