// The flat tables of what racks owe and await: counted from a table, paid for with each move, and read for what is left.
ghost use Rattle.std.specs.Prelude.{◌≡◌, ◌≤◌, ◌<◌, length, get_or};
ghost use Rattle.racks.specs.Limits.{CELLS, RACKS, SLOTS};
ghost use Rattle.racks.specs.Job.{racks_of};
ghost use Rattle.tables.specs.parts.Tables.{Open};
ghost use Rattle.bits.specs.parts.Bits.{NextOn};
ghost use Rattle.queues.specs.parts.Line.{Blank};
ghost use Rattle.carrying.specs.parts.Carrying.{unflat};
ghost use Rattle.owed.specs.parts.Owed.{cell, Owed, Countable, owes_with};
ghost use Rattle.owed.specs.parts.Kept.{Payable, Paid, owing};

use racks::Job;

// Counts slot g: a card that is away, for its rack and the one that it is bound for. The count is stored, with 0 or 1 added: where free and
// taken slots alternate at random no branch on a slot could be foretold.
fn count_slot(
    places: &[u16],
    racking: &[u8; Job::MAX_SLOTS],
    g: usize,
    owes: &mut [u16; Job::CELLS],
)
    requires { Countable places.now racking.now g owes.old }
    ensures { owes.new ≡ owes_with places.now racking.now g owes.old }
{
    let from = racking[g] as usize;
    let to = racking[tables::parts::named_slot(places[g], g)] as usize;
    let k = from * Job::MAX_RACKS + to;
    owes[k] += u16::from(from != to);
}

// What each rack of a legal table owes each other, into a table of zeros: one pass over the slots.
pub fn count_owed(
    job: Job,
    places: &[u16],
    racking: &[u8; Job::MAX_SLOTS],
    owes: &mut [u16; Job::CELLS],
)
    requires { Open job places.now racking.now × Blank CELLS owes.old }
    ensures { Owed (racks_of job) places.now owes.new }
{
    for g in 0..job.slots {
        count_slot(places, racking, g, owes);
    }
}

// Where the racks of a move stand in a table of 64 by 64 counts.
fn cell_of(racking: &[u8; Job::MAX_SLOTS], from: u16, to: u16) -> usize
    requires { (from < SLOTS) × (to < SLOTS) × (get_or racking.now from 0 < RACKS) × (get_or racking.now to 0 < RACKS) }
    ensures { result ≡ cell (get_or racking.now from 0) (get_or racking.now to 0) }
{
    let i = racking[from as usize] as usize;
    let p = racking[to as usize] as usize;
    i * Job::MAX_RACKS + p
}

// The moves of `pairs`, from and to of each, paid for in both tables: one count less for each.
pub fn pay_moves(
    pairs: &[u16],
    racking: &[u8; Job::MAX_SLOTS],
    owes: &mut [u16; Job::CELLS],
    awaits: &mut [u16; Job::CELLS],
)
    requires sized { (length owes.old ≡ CELLS) × (length awaits.old ≡ CELLS) }
    requires payable { Payable racking.now (unflat pairs.now) owes.old × Payable racking.now (unflat pairs.now) awaits.old }
    ensures { Paid racking.now (unflat pairs.now) owes.old awaits.old owes.new awaits.new }
{
    for pair in pairs.chunks_exact(2) {
        let k = cell_of(racking, pair[0], pair[1]);
        owes[k] -= 1;
        awaits[k] -= 1;
    }
}

// The first cell of the table from `cell` on in which something is awaited; `cells` where there is none. The counts only fall, so a run looks
// at each cell once.
pub fn next_awaited(awaits: &[u16; Job::CELLS], cell: usize, cells: usize) -> usize
    requires { (cell ≤ cells) × (cells ≤ CELLS) }
    ensures { NextOn (owing awaits.now) cell cells result }
{
    for k in cell..cells {
        if awaits[k] != 0 {
            return k;
        }
    }
    cells
}
