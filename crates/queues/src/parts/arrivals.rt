// The queues of arrivals: for each rack, the slots of the cards away to it, ascending, in its own stretch of the line.
ghost use Rattle.std.specs.Prelude.{◌≡◌, ◌≤◌, ◌<◌, length};
ghost use Rattle.counting.specs.Count.{count};
ghost use Rattle.racks.specs.Limits.{RACKS, SLOTS};
ghost use Rattle.racks.specs.Racks.{slots};
ghost use Rattle.racks.specs.Table.{free};
ghost use Rattle.racks.specs.Job.{racks_of, Sound};
ghost use Rattle.tables.specs.parts.Tables.{Open};
ghost use Rattle.bits.specs.parts.Bits.{WORDS};
ghost use Rattle.queues.specs.parts.Line.{LINE, Blank};
ghost use Rattle.queues.specs.parts.Queued.{placed, Placed, Queueable, queued, Awaiting};
ghost use Rattle.queues.specs.parts.Ready.{Started};

use crate::parts::{line, openings};
use racks::Job;

// How many of these slots are free.
pub fn count_free(slots: &[u16]) -> u16
    requires { length slots.now ≤ SLOTS }
    ensures { result ≡ count (length slots.now) (free slots.now) }
{
    let mut free: u16 = 0;
    for entry in slots {
        free += u16::from(*entry == Job::FREE);
    }
    free
}

// Rack p, which begins at slot `low`, in the line, with its free slots; its queue is empty.
fn place_rack(line: &mut [u16; line::LINE], p: usize, low: u16, rooms: u16)
    requires { (length line.old ≡ LINE) × (p < RACKS) × (low ≤ SLOTS) }
    ensures { line.new ≡ placed p low rooms line.old }
{
    let begins = low + p as u16;
    line[line::HEADS + p] = begins;
    line[line::TAILS + p] = begins;
    line[line::ROOMS + p] = rooms;
}

// Every rack in the line.
fn place_racks(job: Job, places: &[u16], line: &mut [u16; line::LINE])
    requires { Sound job × (length places.now ≡ slots (racks_of job)) × Blank LINE line.old }
    ensures { Placed (racks_of job) places.now job.racks line.new }
{
    let mut low: u16 = 0;
    for p in 0..job.racks {
        let high = job.ends[p];
        let free = count_free(&places[low as usize..high as usize]);
        place_rack(line, p, low, free);
        low = high;
    }
}

// One slot of the pass: where its card is away, the slot goes to the tail of its card's queue. The store is made whatever the slot holds,
// since no branch on it could be foretold where free and taken slots alternate at random: where no card is away the tail stays before it.
fn queue_slot(
    places: &[u16],
    racking: &[u8; Job::MAX_SLOTS],
    g: usize,
    line: &mut [u16; line::LINE],
)
    requires { Queueable racking.now places.now g line.old }
    ensures { line.new ≡ queued racking.now places.now g line.old }
{
    let here = racking[g] as usize;
    let there = racking[tables::parts::named_slot(places[g], g)] as usize;
    let tail = line[line::TAILS + there];
    line[tail as usize] = g as u16;
    line[line::TAILS + there] = tail + u16::from(here != there);
}

// The racks that wait: a bit is on where a card is in the rack's queue.
fn find_waiting(n: usize, line: &[u16; line::LINE]) -> u64
    requires { n ≤ RACKS }
    ensures { Awaiting n line.now result }
{
    let mut word: u64 = 0;
    for p in 0..n {
        if line[line::HEADS + p] < line[line::TAILS + p] {
            word = bits::parts::turn_on(word, p);
        }
    }
    word
}

// The rows of a legal table: every rack's cards wait in its queue, its free slots are in the set and counted, and the racks that wait are known.
pub fn queue_up(
    job: Job,
    places: &[u16],
    racking: &[u8; Job::MAX_SLOTS],
    line: &mut [u16; line::LINE],
    bits: &mut [u64; bits::parts::WORDS],
)
    requires { Open job places.now racking.now × Blank LINE line.old × Blank WORDS bits.old }
    ensures { Started (racks_of job) places.now job.ends line.new bits.new }
{
    place_racks(job, places, line);
    openings::find_free(places, bits);
    for g in 0..job.slots {
        queue_slot(places, racking, g, line);
    }
    bits[line::WAITING] = find_waiting(job.racks, line);
}
