// What the writer is given.
use answers::Refusal;

// A job: its capacities, the bytes of a card, the table and the cards.
#[derive(Clone, Copy)]
pub struct Given<'a> {
    pub caps: &'a [u16],
    pub b: usize,
    pub places: &'a [u16],
    pub cards: &'a [u8],
}

impl<'a> Given<'a> {
    pub fn of(caps: &'a [u16], b: usize, places: &'a [u16], cards: &'a [u8]) -> Given<'a> {
        Given {
            caps,
            b,
            places,
            cards,
        }
    }

    pub fn write(self, out: &mut [u8]) -> Result<usize, Refusal> {
        jobwriter::write_file(self.caps, self.b, self.places, self.cards, out)
    }
}
