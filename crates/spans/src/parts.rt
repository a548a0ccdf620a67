// Spans of slots: how many of their entries lie in a range, where the lowest does, and the slots of such entries put into a list of pairs.
ghost use Rattle.std.specs.Prelude.{◌≡◌, ◌+◌, ◌-◌, ◌*◌, ◌≤◌, ◌<◌, min, length, take};
ghost use Rattle.counting.specs.Tests.{pick};
ghost use Rattle.counting.specs.Count.{select_from};
ghost use Rattle.counting.specs.Lists.{column};
ghost use Rattle.spans.specs.parts.Spans.{range_of, free_range, behind, lies, RangeFits, entry_in, hits_in, entries_in, Puttable, SlotsPut};

use racks::Job;

// Numbers from `first` on, `width` of them: the slots of a rack, for the entries of the cards bound for it; or the mark of a free slot alone.
#[derive(Clone, Copy)]
pub struct Range {
    pub first: u16,
    pub width: u16,
}

impl Range {
    // The entries of the cards bound for the rack from `first` up to `end`.
    pub fn of(first: u16, end: u16) -> Range
        requires { first ≤ end }
        ensures { result ≡ range_of first end }
    {
        Range {
            first,
            width: end - first,
        }
    }

    // The entry of a free slot.
    pub fn free() -> Range
        ensures { result ≡ free_range }
    {
        Range {
            first: Job::FREE,
            width: 1,
        }
    }
}

// What a span has: how many of its entries lie in a range, and how far from its first slot the lowest of them is; its length where none does.
#[derive(Clone, Copy)]
pub struct Hits {
    pub count: u16,
    pub lowest: u16,
}

// The slots of a piece, which a loop looks at without a branch: of so many, and always as many, the compiler makes steps of several slots.
const PIECE: u16 = 64;

// Whether an entry lies in a range: how far it lies behind the range's first number, where 0 follows on 65,535, is one subtraction of 16 bits,
// and so one compare does, however the range lies.
fn lies(range: Range, x: u16) -> bool
    requires { RangeFits range }
    ensures { result ≡ lies range x }
{
    x.wrapping_sub(range.first) < range.width
}

// What the n slots from `low` on have of a range: one pass without a branch on an entry.
pub fn look(places: &[u16], low: usize, n: u16, range: Range) -> Hits
    requires { (low + n ≤ length places.now) × RangeFits range }
    ensures { result ≡ hits_in places.now range low n }
{
    let mut count: u16 = 0;
    let mut lowest: u16 = n;
    for j in 0..n {
        let hit = lies(range, places[low + j as usize]);
        count += u16::from(hit);
        lowest = lowest.min(if hit { j } else { n });
    }
    Hits { count, lowest }
}

// The slots from `low` on whose entries lie in a range, into one column of the pairs from k up to `stop`. The store is made whatever the
// entry is, since no branch on it could be foretold: what is no such slot is written over by the next one.
pub fn put_hits(
    places: &[u16],
    low: usize,
    range: Range,
    lent: &mut [u16],
    side: usize,
    k: usize,
    stop: usize,
)
    requires low_in_bounds { (low ≤ length places.now) × (length places.now ≤ 65535) × RangeFits range × (side ≤ 1) × (k ≤ stop) × (2 * stop ≤ length lent.old) }
    requires k_in_bounds { stop - k ≤ length (select_from low (length places.now - low) (entry_in places.now range)) }
    ensures { lent.new ≡ column side lent.old k (take (stop - k) (select_from low (length places.now - low) (entry_in places.now range))) }
{
    let mut g = low;
    let mut next = k;
    // Kept: the next pair goes on by 0 or 1, and there are slots enough for all pairs. A `for` over the slots would have two tests a slot.
    while next < stop {
        lent[2 * next + side] = g as u16;
        next += usize::from(lies(range, places[g]));
        g += 1;
    }
}

// Of the n slots from `low` on those whose entries lie in a range, from the lowest up, into the pairs from k up to `stop`. Gives the next pair.
// Most often there is one such slot or none: that is one store and no branch, of the slot or of what stood there.
fn put_piece(
    places: &[u16],
    low: usize,
    n: u16,
    range: Range,
    lent: &mut [u16],
    k: usize,
    stop: usize,
) -> usize
    requires { Puttable places.now range low n lent.old stop × (k < stop) }
    ensures { SlotsPut lent.old k (take (stop - k) (select_from low n (entry_in places.now range))) result lent.new }
{
    let here = look(places, low, n, range);
    let slot = low + here.lowest as usize;
    if here.count < 2 {
        let stood = lent[2 * k];
        lent[2 * k] = if here.count == 1 { slot as u16 } else { stood };
        return k + here.count as usize;
    }
    let end = (k + here.count as usize).min(stop);
    put_hits(places, slot, range, lent, 0, k, end);
    end
}

// The same of a span of any length, a piece at a time: where no pair is left no further slot is looked at. The last piece has a call of its
// own, so that in the other the length is a constant.
pub fn put_span(
    places: &[u16],
    low: usize,
    high: usize,
    range: Range,
    lent: &mut [u16],
    k: usize,
    stop: usize,
) -> usize
    requires { (low ≤ high) × Puttable places.now range low (high - low) lent.old stop × (k ≤ stop) }
    ensures { SlotsPut lent.old k (take (stop - k) (select_from low (high - low) (entry_in places.now range))) result lent.new }
{
    let mut next = k;
    for g in (low..high).step_by(PIECE as usize) {
        if next == stop {
            return next;
        }
        if high < g + PIECE as usize {
            return put_piece(places, g, (high - g) as u16, range, lent, next, stop);
        }
        next = put_piece(places, g, PIECE, range, lent, next, stop);
    }
    next
}

// How many of the n slots from `low` on have an entry that lies in a range: one loop without a branch on an entry, all in 16 bits as the
// entries are, so that the compiler makes steps of as many slots as it can.
pub fn count_in(places: &[u16], low: usize, n: u16, range: Range) -> u16
    requires { (low + n ≤ length places.now) × RangeFits range }
    ensures { result ≡ entries_in places.now range low n }
{
    let mut found: u16 = 0;
    for k in 0..n {
        found += u16::from(lies(range, places[low + k as usize]));
    }
    found
}
