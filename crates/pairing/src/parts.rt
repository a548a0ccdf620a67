// The pairs of a phase, from the queues: each rack's waiting cards take its free slots from the lowest up.
ghost use Rattle.std.specs.Prelude.{◌≡◌, ◌+◌, ◌*◌, ◌-◌, ◌≤◌, ◌<◌, length};
ghost use Rattle.std.proofs.lemmas.List.Edits.{sets};
ghost use Rattle.counting.specs.Lists.{flat};
ghost use Rattle.racks.specs.Limits.{RACKS, SLOTS};
ghost use Rattle.bits.specs.parts.Bits.{Topped};
ghost use Rattle.queues.specs.parts.Line.{queue_of, HEADS, LINE};
ghost use Rattle.queues.specs.parts.Queues.{rows_of, Visitable, opens};
ghost use Rattle.pairing.specs.parts.Phase.{served, sent, Visited, Plannable, PhasePlanned};

use queues::parts::line;
use racks::Job;

// Writes the pairs of one target from `at` on, two numbers each: its cards from `head` up to `end` of the queues take the free slots from
// `low` on, of which there are as many.
fn plan_rack(
    line: &[u16; line::LINE],
    head: usize,
    end: usize,
    bits: &[u64; bits::parts::WORDS],
    low: usize,
    log: &mut [u16],
    at: usize,
)
    requires head_le_end { (head ≤ end) × (end ≤ HEADS) × (length line.now ≡ LINE) × (low ≤ SLOTS) × Topped bits.now }
    requires end_bound { (end ≤ head + length (opens bits.now low SLOTS)) × (at + 2 * (end - head) ≤ length log.old) }
    ensures { log.new ≡ sets log.old at (flat (served bits.now (queue_of line.now) head end low)) }
{
    let mut k = at;
    let mut base = low;
    let mut rest = bits::parts::walk_from(bits, low);
    for h in head..end {
        let walk = bits::parts::walk_on(bits, base, rest);
        let b = bits::parts::next_on(walk.rest, 0);
        log[k] = line[h];
        log[k + 1] = (walk.at + b) as u16;
        k += 2;
        base = walk.at;
        rest = bits::parts::turn_off(walk.rest, b);
    }
}

// Visits rack p: writes the pairs of the cards that it takes from `at` on, and says how many they are. Its queue then begins behind them,
// and it has so much less room.
fn visit(
    ends: &[u16; Job::MAX_RACKS],
    line: &mut [u16; line::LINE],
    p: usize,
    bits: &[u64; bits::parts::WORDS],
    log: &mut [u16],
    at: usize,
) -> usize
    requires { (length line.old ≡ LINE) × (p < RACKS) × Topped bits.now × Visitable (rows_of ends.now line.old bits.now) p × (at + 2 * sent (rows_of ends.now line.old bits.now) p ≤ length log.old) }
    ensures { Visited ends.now line.old bits.now p log.old at line.new log.new result }
{
    let head = line[line::HEADS + p] as usize;
    let waits = line[line::TAILS + p] as usize - head;
    let room = line[line::ROOMS + p] as usize;
    let made = room.min(waits);
    let end = head + made;
    let low = racks::parts::first_slot(ends, p) as usize;
    plan_rack(line, head, end, bits, low, log, at);
    line[line::HEADS + p] = end as u16;
    line[line::ROOMS + p] = (room - made) as u16;
    made
}

// Plans a phase: its pairs from `at` on, by target rack, and how many they are. Only racks that wait are visited, each taken out of a word
// of those still to be visited; a rack whose queue is used up waits no more.
pub fn plan_phase(
    ends: &[u16; Job::MAX_RACKS],
    line: &mut [u16; line::LINE],
    bits: &mut [u64; bits::parts::WORDS],
    log: &mut [u16],
    at: usize,
) -> usize
    requires { Plannable ends.now line.old bits.old log.old at }
    ensures { PhasePlanned ends.now line.old bits.old log.old at line.new bits.new log.new result }
{
    let mut count: usize = 0;
    let mut waiting = bits[line::WAITING];
    let mut left = waiting;
    let mut p = bits::parts::next_on(left, 0);
    // Kept: a walk over the bits that are on; a `for` over all racks would be no plainer, with a test in each turn.
    while p < 64 {
        let made = visit(ends, line, p, bits, log, at + 2 * count);
        if line[line::TAILS + p] <= line[line::HEADS + p] {
            waiting = bits::parts::turn_off(waiting, p);
        }
        left = bits::parts::turn_off(left, p);
        count += made;
        p = bits::parts::next_on(left, 0);
    }
    bits[line::WAITING] = waiting;
    count
}
