// What the layers give, as the plain numbers of C.
ghost use Rattle.std.specs.Prelude.{◌≡◌};
ghost use Rattle.answers.specs.Answers.{answer, answered, refused, size_answered, no_counts};
ghost use Rattle.slots.specs.Told.{kind_told, state_told, slot_answered};
ghost use Rattle.parsing.specs.Answers.{file_answered};
ghost use Rattle.flat.specs.Flat.{answer_of, kind_number, state_number, rack_number, slot_numbers, file_of, size_of};

use crate::{Answer, FileAnswer, SizeAnswer, SlotAnswer};
use answers::{Refusal, Tally};
use parsing::FileJob;
use slots::{Kind, Slot, State};

// The number, its place and the counts, whatever they are.
impl From<answers::Answer> for Answer {
    ghost from_gives = { λ answer r. answer_of r ≡ answer };

    fn from(answer: answers::Answer) -> Answer {
        Answer {
            number: answer.number as usize,
            place: answer.place,
            phases: answer.tally.phases,
            moves: answer.tally.moves,
            copies: answer.tally.copies,
        }
    }
}

// A call that counts: the number, its place and the counts.
impl From<Result<Tally, Refusal>> for Answer {
    ghost from_gives = { λ given r. answer_of r ≡ answered given };

    fn from(given: Result<Tally, Refusal>) -> Answer {
        Answer::from(answers::Answer::of(given))
    }
}

// A check: the number and its place, and no counts.
impl From<Result<(), Refusal>> for Answer {
    ghost from_gives = { λ given r. answer_of r ≡ answer (refused given) no_counts };

    fn from(given: Result<(), Refusal>) -> Answer {
        Answer::from(given.map(|_| Tally::none()))
    }
}

// User slot 1, spare 2.
pub fn kind_number(kind: Kind) -> usize
    ensures { result ≡ kind_number (kind_told kind) }
{
    match kind {
        Kind::User => 1,
        Kind::Spare => 2,
    }
}

// Free 1, settled 2, unsettled 3, away 4.
pub fn state_number(state: State) -> usize
    ensures { result ≡ state_number (state_told state) }
{
    match state {
        State::Free => 1,
        State::Settled => 2,
        State::Unsettled => 3,
        State::Away(_) => 4,
    }
}

// The rack to which a card is away; 0 in every other state.
pub fn rack_number(state: State) -> usize
    ensures { result ≡ rack_number (state_told state) }
{
    match state {
        State::Away(rack) => rack,
        State::Free => 0,
        State::Settled => 0,
        State::Unsettled => 0,
    }
}

// The slot question.
impl From<Result<Slot, Refusal>> for SlotAnswer {
    ghost from_gives = { λ given r. r ≡ slot_numbers (slot_answered given) };

    fn from(given: Result<Slot, Refusal>) -> SlotAnswer {
        match given {
            Ok(slot) => SlotAnswer {
                number: 0,
                place: 0,
                phases: 0,
                moves: 0,
                copies: 0,
                kind: kind_number(slot.kind),
                state: state_number(slot.state),
                rack: rack_number(slot.state),
            },
            Err(refusal) => SlotAnswer {
                number: refusal.number() as usize,
                place: refusal.place(),
                phases: 0,
                moves: 0,
                copies: 0,
                kind: 0,
                state: 0,
                rack: 0,
            },
        }
    }
}

// The file reader.
impl From<Result<FileJob, Refusal>> for FileAnswer {
    ghost from_gives = { λ given r. file_of r ≡ file_answered given };

    fn from(given: Result<FileJob, Refusal>) -> FileAnswer {
        match given {
            Ok(job) => FileAnswer {
                number: 0,
                place: 0,
                phases: 0,
                moves: 0,
                copies: 0,
                racks: job.racks,
                bytes: job.bytes,
                slots: job.slots,
                start: job.start,
            },
            Err(refusal) => FileAnswer {
                number: refusal.number() as usize,
                place: refusal.place(),
                phases: 0,
                moves: 0,
                copies: 0,
                racks: 0,
                bytes: 0,
                slots: 0,
                start: 0,
            },
        }
    }
}

// A call that writes bytes.
impl From<Result<usize, Refusal>> for SizeAnswer {
    ghost from_gives = { λ given r. size_of r ≡ size_answered given };

    fn from(given: Result<usize, Refusal>) -> SizeAnswer {
        match given {
            Ok(size) => SizeAnswer {
                number: 0,
                place: 0,
                phases: 0,
                moves: 0,
                copies: 0,
                size,
            },
            Err(refusal) => SizeAnswer {
                number: refusal.number() as usize,
                place: refusal.place(),
                phases: 0,
                moves: 0,
                copies: 0,
                size: 0,
            },
        }
    }
}
