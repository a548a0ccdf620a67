// Answers: why a call is refused, the counts of what it did, and both as the numbers that every call gives.
#![tactic(auto)]

ghost use Rattle.std.specs.Prelude.{◌≡◌};
ghost use Rattle.answers.specs.Answers.{TallyNone, TallyOfMoves, TallyOfCopies, NumberOf, PlaceOf, AnswerNumbered, AnswerRefused, AnswerDone, AnswerGiven};

pub mod parts;

// The counts of phases, moves and copies.
#[derive(Clone, Copy)]
pub struct Tally {
    pub phases: usize,
    pub moves: usize,
    pub copies: usize,
}

impl Tally {
    pub fn none() -> Tally
        ensures { TallyNone result }
    {
        Tally::of_moves(0)
    }

    // The counts of a call that makes or plans so many moves.
    pub fn of_moves(moves: usize) -> Tally
        ensures { TallyOfMoves moves result }
    {
        Tally {
            phases: 0,
            moves,
            copies: 0,
        }
    }

    // The counts of a call that makes or lists so many copies.
    pub fn of_copies(copies: usize) -> Tally
        ensures { TallyOfCopies copies result }
    {
        Tally {
            phases: 0,
            moves: 0,
            copies,
        }
    }
}

// Why a call is refused, a case for each number of the rules' list; where an entry is refused, which one.
#[derive(Clone, Copy)]
pub enum Refusal {
    // 1: N is 0 or above 64.
    BadCount,
    // 2: B is 0 or above 256.
    BadBytes,
    // 3: a rack has too many user slots, or all racks have.
    BadSize,
    // 4: places is not S long, or cards not S·B.
    BadLength,
    // 5: this entry is neither free nor a user slot.
    BadEntry(usize),
    // 6: this entry names the slot that an earlier one names.
    NamedTwice(usize),
    // 7: a slot number is S or more.
    NoSlot,
    // 8: the source slot is free.
    SourceFree,
    // 9: the source's card is on its rack already.
    SourceHome,
    // 10: the target is not on the card's destination rack.
    Elsewhere,
    // 11: the target is not free.
    TargetTaken,
    // 12: a card is away.
    SomeAway,
    // 13: the lent list is too short for what would be written.
    TooShort,
    // 14: a number of a file is padded beyond its shortest form.
    FileForm,
    // 15: a file ends too early.
    FileEnds,
    // 16: bytes of a file are left over.
    FileLeftOver,
    // 17: the lent lists have no room for a file's capacities or places.
    FileRoom,
    // 18: a file is too large to be listed.
    FileLarge,
    // 19: the buffer is shorter than the file.
    BufferShort,
    // 20: a number of a file has more than three groups.
    FileGroups,
}

impl Refusal {
    // The number of the rules' list.
    pub fn number(self) -> u8
        ensures { NumberOf self result }
    {
        match self {
            Refusal::BadCount => 1,
            Refusal::BadBytes => 2,
            Refusal::BadSize => 3,
            Refusal::BadLength => 4,
            Refusal::BadEntry(_) => 5,
            Refusal::NamedTwice(_) => 6,
            Refusal::NoSlot => 7,
            Refusal::SourceFree => 8,
            Refusal::SourceHome => 9,
            Refusal::Elsewhere => 10,
            Refusal::TargetTaken => 11,
            Refusal::SomeAway => 12,
            Refusal::TooShort => 13,
            Refusal::FileForm => 14,
            Refusal::FileEnds => 15,
            Refusal::FileLeftOver => 16,
            Refusal::FileRoom => 17,
            Refusal::FileLarge => 18,
            Refusal::BufferShort => 19,
            Refusal::FileGroups => 20,
        }
    }

    // The place that goes with the number: the entry where one is refused, else 0.
    pub fn place(self) -> usize
        ensures { PlaceOf self result }
    {
        match self {
            Refusal::BadEntry(entry) => entry,
            Refusal::NamedTwice(entry) => entry,
            _ => 0,
        }
    }
}

// What every call gives as numbers: a number of the rules' list, the place that goes with it, and the counts.
#[derive(Clone, Copy)]
pub struct Answer {
    pub number: u8,
    pub place: usize,
    pub tally: Tally,
}

impl Answer {
    // Any number and place, also one that the rules' list has not, with no counts.
    pub fn numbered(number: u8, place: usize) -> Answer
        ensures { AnswerNumbered number place result }
    {
        let tally = Tally::none();
        Answer {
            number,
            place,
            tally,
        }
    }

    // A refusal's number and place, with no counts.
    pub fn refused(refusal: Refusal) -> Answer
        ensures { AnswerRefused refusal result }
    {
        Answer::numbered(refusal.number(), refusal.place())
    }

    // Done, with the counts.
    pub fn done(tally: Tally) -> Answer
        ensures { AnswerDone tally result }
    {
        Answer {
            number: 0,
            place: 0,
            tally,
        }
    }

    // What a call gives: its counts, or why it is refused.
    pub fn of(given: Result<Tally, Refusal>) -> Answer
        ensures { AnswerGiven given result }
    {
        match given {
            Ok(tally) => Answer::done(tally),
            Err(refusal) => Answer::refused(refusal),
        }
    }
}
