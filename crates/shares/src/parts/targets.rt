// The targets of the plan: how many pairs each gets, the entries looked at again for each.
ghost use Rattle.std.specs.Prelude.{◌≡◌, length};
ghost use Rattle.racks.specs.Limits.{RACKS};
ghost use Rattle.racks.specs.Job.{racks_of, Sound};
ghost use Rattle.racks.specs.parts.Legal.{Legal};
ghost use Rattle.shares.specs.parts.Targets.{share_to, TargetIn};
ghost use Rattle.shares.specs.parts.Shares.{Shared};

use racks::Job;
use spans::parts::Range;

// How many pairs the rack from `first` up to `end` gets: the smaller of its free slots and the cards on other racks bound for it. A card is
// bound for it exactly if its entry lies from `first` on and before `end`. Its sources lie one behind another, below it and above it, and each
// is granted of what the ones before it have left: so they are counted together.
fn count_target(places: &[u16], first: u16, end: u16) -> usize
    requires { TargetIn places.now first end }
    ensures { result ≡ share_to places.now first end }
{
    let slots = places.len() as u16;
    let range = Range::of(first, end);
    let below = spans::parts::count_in(places, 0, first, range);
    let above = spans::parts::count_in(places, end as usize, slots - end, range);
    let free = spans::parts::count_in(places, first as usize, end - first, Range::free());
    (below + above).min(free) as usize
}

// Each target's share of the list, one behind another: where it begins, which is where its next pair stands, and where it stops. Gives how
// many pairs the plan has.
pub fn share_out(
    job: Job,
    places: &[u16],
    nexts: &mut [u16; Job::MAX_RACKS],
    stops: &mut [u16; Job::MAX_RACKS],
) -> usize
    requires { Sound job × Legal (racks_of job) places.now × (length nexts.old ≡ RACKS) × (length stops.old ≡ RACKS) }
    ensures { Shared (racks_of job) places.now nexts.new stops.new result }
{
    let mut pairs: usize = 0;
    let mut low: u16 = 0;
    for p in 0..job.racks {
        let high = job.ends[p];
        nexts[p] = pairs as u16;
        pairs += count_target(places, low, high);
        stops[p] = pairs as u16;
        low = high;
    }
    pairs
}
