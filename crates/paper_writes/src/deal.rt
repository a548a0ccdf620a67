// Jobs that fill the limits: every user slot holds a card that is settled.
ghost use Rattle.std.specs.Prelude.{◌<◌};

use racks::Job;

// The entry of slot g, on racks of so many slots, the last of them a spare.
fn entry(width: usize, g: usize) -> u16
    requires { 0 < width }
{
    if g % width == width - 1 {
        return Job::FREE;
    }
    if Job::MAX_SLOTS <= g {
        return Job::FREE;
    }
    g as u16
}

// The places of such racks.
pub fn deal_places(width: usize, places: &mut [u16])
    requires { 0 < width }
{
    for (g, place) in places.iter_mut().enumerate() {
        *place = entry(width, g);
    }
}

// Card bytes of which neighbours differ.
pub fn deal_cards(cards: &mut [u8]) {
    for (i, x) in cards.iter_mut().enumerate() {
        *x = (i % 251) as u8;
    }
}
