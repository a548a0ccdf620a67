// The cards of the plan: one pass over the slots grants each card that its target takes the next pair of the target's share.
ghost use Rattle.std.specs.Prelude.{◌≡◌, not, ◌*◌, ◌≤◌, eqb, ltb, length};
ghost use Rattle.counting.specs.Tests.{◌and◌, pick};
ghost use Rattle.racks.specs.Limits.{SLOTS};
ghost use Rattle.racks.specs.Racks.{slots};
ghost use Rattle.racks.specs.Job.{racks_of, Sound};
ghost use Rattle.racks.specs.parts.Legal.{Legal};
ghost use Rattle.tables.specs.parts.Tables.{Filled};
ghost use Rattle.shares.specs.parts.Columns.{columns};
ghost use Rattle.shares.specs.parts.Shares.{start_of, cards_to, Shared};
ghost use Rattle.shares.specs.parts.Cards.{Grantable, CardGranted};

use racks::Job;

// Whether a target takes a card: it comes from another rack, and the target's share is not used up.
fn takes_card(from: u8, to: u8, next: u16, stop: u16) -> bool
    ensures { result ≡ not (eqb from to) and ltb next stop }
{
    if from == to {
        return false;
    }
    next < stop
}

// One slot of the pass: where its target takes its card, the slot is the source of the next pair of that target's share. 1 if so, else 0. The
// store is made whatever the slot holds, since no branch on it could be foretold: where no card is taken, of what stood there, and at the
// list's front, since the pair behind a share that is used up may lie behind the list.
fn grant_card(
    places: &[u16],
    racking: &[u8],
    g: usize,
    nexts: &mut [u16; Job::MAX_RACKS],
    stops: &[u16; Job::MAX_RACKS],
    lent: &mut [u16],
) -> u16
    requires { Grantable racking.now places.now g nexts.old stops.now lent.old }
    ensures { CardGranted racking.now places.now g nexts.old stops.now lent.old result nexts.new lent.new }
{
    let to = racking[tables::parts::named_slot(places[g], g)];
    let next = nexts[to as usize];
    let taken = takes_card(racking[g], to, next, stops[to as usize]);
    let at = if taken { 2 * next as usize } else { 0 };
    let stood = lent[at];
    lent[at] = if taken { g as u16 } else { stood };
    let one = u16::from(taken);
    nexts[to as usize] = next + one;
    one
}

// The cards of the plan, each target's into its share of the list. Where all are granted no further slot is looked at.
pub fn grant_cards(
    job: Job,
    places: &[u16],
    racking: &[u8],
    nexts: &mut [u16; Job::MAX_RACKS],
    stops: &[u16; Job::MAX_RACKS],
    lent: &mut [u16],
    pairs: usize,
)
    requires sound { Sound job × Legal (racks_of job) places.now × Filled (racks_of job) racking.now × (SLOTS ≤ length racking.now) }
    requires shared { Shared (racks_of job) places.now nexts.old stops.now pairs × (2 * pairs ≤ length lent.old) }
    ensures { lent.new ≡ columns 0 (length (racks_of job)) (start_of (racks_of job) places.now) (cards_to (racks_of job) places.now (slots (racks_of job))) lent.old }
{
    let mut put: usize = 0;
    for g in 0..job.slots {
        if put == pairs {
            return;
        }
        put += grant_card(places, racking, g, nexts, stops, lent) as usize;
    }
}
