// How many slots came out wrong: a user slot holds its own card and names itself, a spare is free and all zero.
ghost use Rattle.std.specs.Prelude.{◌<◌, ◌≤◌};

use crate::deal;
use deal::Deal;
use racks::Job;
use saying::parts::Lent;

// The entry of slot `g` after the run.
fn settled(deal: Deal, g: usize) -> u16 {
    if Job::MAX_SLOTS <= g {
        return Job::FREE;
    }
    if deal.destination(g) == Job::FREE {
        return Job::FREE;
    }
    g as u16
}

fn card_wrong(own: u16, card: &[u8]) -> usize
    ensures { result ≤ 1 }
{
    for (k, x) in card.iter().enumerate() {
        if *x != deal::byte_of(own, k) {
            return 1;
        }
    }
    0
}

fn slot_wrong(own: u16, entry: u16, card: &[u8]) -> usize
    ensures { result ≤ 1 }
{
    if entry != own {
        return 1;
    }
    card_wrong(own, card)
}

// Every slot is wrong where the cards are too short.
pub fn wrong_slots(deal: Deal, job: &Lent) -> usize {
    let (b, places, cards) = (job.b, &*job.places, &*job.cards);
    let mut wrong: usize = 0;
    let mut at: usize = 0;
    for (g, entry) in places.iter().enumerate() {
        if cards.len() - at < b {
            return places.len();
        }
        let own = settled(deal, g);
        wrong += slot_wrong(own, *entry, &cards[at..at + b]);
        at += b;
    }
    wrong
}
