// The chains of a table, for the copy list and for the shuffle: its inverse, and the walk through the factor of a slot.
ghost use Rattle.std.specs.Prelude.{◌≡◌, ◌≤◌, ◌<◌, length};
ghost use Rattle.racks.specs.Limits.{SLOTS, SOURCES};
ghost use Rattle.racks.specs.Table.{dest};
ghost use Rattle.tables.specs.parts.Tables.{named_slot};
ghost use Rattle.factors.specs.parts.Chains.{Chained};
ghost use Rattle.factors.specs.parts.Walks as defined;
ghost use Rattle.factors.specs.parts.Walks.{NoSources, Sources, put_source, stepped, Inside, hand_end, Passed, MarkedOn, MarkedBack, Walked};

use racks::Job;

// The mark of a slot whose copies are counted or made: no rack has this number, so that the racking serves as marks, uncleared.
pub const COUNTED: u8 = 64;

// The mark of a slot whose copies are listed: no rack has this number, so that the racking serves as marks, uncleared.
pub const LISTED: u8 = 65;

// How many slots the recursion along a chain goes through at a time: a longer one is cut into stretches, so that the stack does not grow with it.
pub const STRETCH: usize = 128;

// The marks of the code are those of the definitions, and so is the stretch.
pub fn marks_agree()
    ensures counted { defined.COUNTED ≡ COUNTED }
    ensures listed { defined.LISTED ≡ LISTED }
    ensures stretch { defined.STRETCH ≡ STRETCH }
{}

// A factor: its first slot, how many slots follow, and on a cycle of two slots or more the slot whose card goes to the hand, else 65,535. One
// way through it, on or back: its last slot, how many slots were passed, and the entry there.
#[derive(Clone, Copy)]
pub struct Walk {
    pub head: usize,
    pub left: usize,
    pub end: u16,
}

// One entry of the inverse: the card in slot g is bound for slot x. Of a free slot it is stored behind all slots, where nothing is read: so
// there is no branch, which could not be foretold where free and taken slots alternate at random.
pub fn put_source(sources: &mut [u16], x: u16, g: usize)
    requires { (SOURCES ≤ length sources.old) × (g < SLOTS) × (named_slot SLOTS x < SOURCES) }
    ensures { sources.new ≡ put_source sources.old x g }
{
    let to = tables::parts::named_slot(x, Job::MAX_SLOTS);
    sources[to] = g as u16;
}

// A list that had other numbers, for the sources of n slots: no card comes to any of them.
pub fn clear_sources(sources: &mut [u16], n: usize)
    requires { (n ≤ SLOTS) × (SOURCES ≤ length sources.old) }
    ensures { NoSources n sources.new }
{
    for d in 0..n {
        sources[d] = Job::FREE;
    }
}

// The inverse of the table, for each slot the slot whose card is bound for it, in one pass over a list as it is made or cleared.
pub fn fill_sources(places: &[u16], sources: &mut [u16])
    requires { Chained places.now × NoSources (length places.now) sources.old }
    ensures { Sources places.now sources.new }
{
    for (g, x) in places.iter().enumerate() {
        put_source(sources, *x, g);
    }
}

// Whose card goes to the hand, where `from` is the slot whose card comes to the first and n slots follow that: nobody's on a lone slot.
pub fn hand_end(from: u16, n: usize) -> u16
    ensures { result ≡ hand_end from n }
{
    if n == 0 {
        return Job::FREE;
    }
    from
}

// Marks the slots that follow slot h by a table, up to an entry that is 65,535 or h.
pub fn mark_along(table: &[u16], seen: &mut [u8; Job::MAX_SLOTS], mark: u8, h: usize) -> Walk
    requires { Chained table.now × (h < length table.now) × (length seen.old ≡ SLOTS) }
    ensures { Passed table.now mark h seen.old result.head result.left result.end seen.new }
{
    let mut x = h;
    for n in 0..table.len() {
        let y = table[x];
        let to = y as usize;
        if y == Job::FREE || to == h {
            return Walk {
                head: x,
                left: n,
                end: y,
            };
        }
        seen[to] = mark;
        x = to;
    }
    Walk {
        head: x,
        left: table.len(),
        end: Job::FREE,
    }
}

// Marks slot h and the slots that follow it. Where that comes to h again, the walk is that of h's factor, a cycle.
pub fn mark_on(places: &[u16], seen: &mut [u8; Job::MAX_SLOTS], mark: u8, h: usize) -> Walk
    requires { Chained places.now × (h < length places.now) × (length seen.old ≡ SLOTS) }
    ensures { MarkedOn places.now mark h seen.old result.head result.left result.end seen.new }
{
    seen[h] = mark;
    let w = mark_along(places, seen, mark, h);
    if w.end == Job::FREE {
        return Walk { head: h, ..w };
    }
    let end = hand_end(w.head as u16, w.left);
    Walk { head: h, end, ..w }
}

// Marks the slots on the way back from slot k: on, by the inverse. What is stored behind its slots is no entry, so that is not lent.
pub fn mark_back(
    places: &[u16],
    sources: &[u16],
    seen: &mut [u8; Job::MAX_SLOTS],
    mark: u8,
    k: usize,
) -> Walk
    requires { Chained places.now × Sources places.now sources.now × (k < length places.now) × (length seen.old ≡ SLOTS) }
    ensures { MarkedBack places.now mark k seen.old result.head result.left seen.new }
{
    let n = places.len();
    mark_along(&sources[..n], seen, mark, k)
}

// The walk through the factor of slot k, which is marked.
pub fn walk_factor(
    places: &[u16],
    sources: &[u16],
    seen: &mut [u8; Job::MAX_SLOTS],
    mark: u8,
    k: usize,
) -> Walk
    requires { Chained places.now × Sources places.now sources.now × (k < length places.now) × (length seen.old ≡ SLOTS) }
    ensures { Walked places.now mark k seen.old result.head result.left result.end seen.new }
{
    let on = mark_on(places, seen, mark, k);
    if on.end != Job::FREE {
        return on;
    }
    let back = mark_back(places, sources, seen, mark, k);
    Walk {
        head: back.head,
        left: back.left + on.left,
        end: Job::FREE,
    }
}

// The slot that is n steps after x.
pub fn slot_after(places: &&[u16], x: usize, n: usize) -> usize
    requires { Inside places.now.now n x × (length places.now.now ≤ SLOTS) }
    ensures { result ≡ stepped (dest places.now.now) n x }
{
    let mut y = x;
    for _k in 0..n {
        y = places[y] as usize;
    }
    y
}
