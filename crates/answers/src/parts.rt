// What the layers above share: the tally's counting.
ghost use Rattle.std.specs.Prelude.{◌≡◌, ◌<◌};
ghost use Rattle.answers.specs.Answers.{plus_phase, plus_move, plus_copy};

use crate::Tally;

impl Tally {
    // One phase more.
    pub fn add_phase(self) -> Tally
        requires { self.phases < 18446744073709551615 }
        ensures { result ≡ plus_phase self }
    {
        Tally {
            phases: self.phases + 1,
            moves: self.moves,
            copies: self.copies,
        }
    }

    // One move more.
    pub fn add_move(self) -> Tally
        requires { self.moves < 18446744073709551615 }
        ensures { result ≡ plus_move self }
    {
        Tally {
            phases: self.phases,
            moves: self.moves + 1,
            copies: self.copies,
        }
    }

    // One copy more.
    pub fn add_copy(self) -> Tally
        requires { self.copies < 18446744073709551615 }
        ensures { result ≡ plus_copy self }
    {
        Tally {
            phases: self.phases,
            moves: self.moves,
            copies: self.copies + 1,
        }
    }
}
