// The line: what a call keeps of each rack, in one list, each kind of number from a place of its own on.
ghost use Rattle.std.specs.Prelude.{◌≡◌};
ghost use Rattle.queues.specs.parts.Line as defined;

// The queues come first: that of rack p begins at its first slot and p, so that each has one place more than its rack has slots.
pub const QUEUES: usize = 0;

// Where each queue begins now.
pub const HEADS: usize = 4160;

// Where each queue ends.
pub const TAILS: usize = 4224;

// How many free slots each rack has.
pub const ROOMS: usize = 4288;

// The numbers of the line.
pub const LINE: usize = 4352;

// Which of the words beside the line has a bit for each rack that waits.
pub const WAITING: usize = 65;

// The places of the code are those of the definitions.
pub fn places_agree()
    ensures queues { defined.QUEUES ≡ QUEUES }
    ensures heads { defined.HEADS ≡ HEADS }
    ensures tails { defined.TAILS ≡ TAILS }
    ensures rooms { defined.ROOMS ≡ ROOMS }
    ensures line { defined.LINE ≡ LINE }
    ensures waiting { defined.WAITING ≡ WAITING }
{}
