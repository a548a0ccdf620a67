// A target of the plan: its free slots, and the cards of other racks that are bound for it, looked for again for each target.
ghost use Rattle.std.specs.Prelude.{◌≡◌, ◌+◌, ◌*◌, ◌≤◌, length};
ghost use Rattle.planner.specs.parts.Targets.{pairs_to, TargetIn, PairsPut};

use spans::parts::Range;

// How many pairs the rack from `first` up to `end` gets: the smaller of its free slots and the cards on other racks bound for it.
pub fn count_target(places: &[u16], first: u16, end: u16) -> usize
    requires { TargetIn places.now first end }
    ensures { result ≡ length (pairs_to places.now first end) }
{
    let slots = places.len() as u16;
    let range = Range::of(first, end);
    let free = spans::parts::look(places, first as usize, end - first, Range::free());
    let below = spans::parts::look(places, 0, first, range);
    let above = spans::parts::look(places, end as usize, slots - end, range);
    let coming = below.count as usize + above.count as usize;
    coming.min(free.count as usize)
}

// The pairs of the rack from `first` up to `end`, into the list from pair k on. A card is bound for it exactly if its entry lies between the
// two. Its sources in ascending order lie one behind another, first below it and then above it: each takes what it owes of the free slots that
// the ones before it have left, so the sources of a span together take the first cards of the span. What is left of its
// free slots is `stop` less the next pair, which is given.
pub fn put_target(
    places: &[u16],
    first: u16,
    end: u16,
    lent: &mut [u16],
    k: usize,
    most: usize,
) -> usize
    requires { TargetIn places.now first end × (k + length (pairs_to places.now first end) ≤ most) × (2 * most ≤ length lent.old) }
    ensures { PairsPut lent.old k (pairs_to places.now first end) result lent.new }
{
    let range = Range::of(first, end);
    let free = spans::parts::look(places, first as usize, end - first, Range::free());
    let stop = (k + free.count as usize).min(most);
    let below = spans::parts::put_span(places, 0, first as usize, range, lent, k, stop);
    let high = places.len();
    let above = spans::parts::put_span(places, end as usize, high, range, lent, below, stop);
    spans::parts::put_hits(places, first as usize, Range::free(), lent, 1, k, above);
    above
}
