// The copies of a chain, the last card first: written into a list, or made among cards.
ghost use Rattle.std.specs.Prelude.{◌≡◌, List, ℕ, ◌+◌, ◌≤◌, ◌<◌, length};
ghost use Rattle.answers.specs.Answers.{plus_copies};
ghost use Rattle.racks.specs.Limits.{COPIES, SLOTS};
ghost use Rattle.racks.specs.Table.{dest};
ghost use Rattle.factors.specs.Copies.{shift};
ghost use Rattle.factors.specs.parts.Walks.{steps, Inside};
ghost use Rattle.copies.specs.parts.Made.{made};

use answers::Tally;
use factors::parts::walks;

// What copies are made in: a list of numbers that they are written into, or cards.
pub trait Target: Copy {
    type Item;

    // The list after a copy, by its number, and from which slot to which.
    ghost step: { Self → ℕ → ℕ → ℕ → List Self.Item → List Self.Item };

    // By the slots of a table, how many copies there are with those before, and the list's length: they can be made in it.
    ghost ready: { Self → ℕ → ℕ → ℕ → Type 0 };

    // Copy number `at`, from slot to slot.
    fn copy(self, list: &mut [Self::Item], at: usize, from: usize, to: u16)
        requires { (slots : ℕ) × ready self slots (at + 1) (length list.old) × (from < slots) × (to < slots) × (slots ≤ SLOTS) × (at < COPIES) }
        ensures { list.new ≡ step self at from to list.old };

    // Where so many copies can be made, fewer can.
    ghost fewer: { (target : Self) (slots m n long : ℕ) → m ≤ n → ready target slots n long → ready target slots m long };
}

// The copies of the chain of slot x and the `left` slots after it, the last card first, behind those that the tally has; each is added to it
// where it is made. The table is lent as a reference to a slice, which is one register for each level of the recursion.
pub fn make_shift<T: Target>(
    target: T,
    places: &&[u16],
    list: &mut [T::Item],
    x: usize,
    left: usize,
    tally: Tally,
) -> Tally
    requires { Inside places.now.now left x × (length places.now.now ≤ SLOTS) × (tally.copies + left ≤ COPIES) × T.ready target (length places.now.now) (tally.copies + left) (length list.old) }
    ensures counts { result ≡ plus_copies left tally }
    ensures copies { list.new ≡ made (T.step target) tally.copies (shift x (steps (dest places.now.now) left x)) list.old }
{
    if left == 0 {
        return tally;
    }
    let y = places[x];
    let made = make_shift(target, places, list, y as usize, left - 1, tally);
    target.copy(list, made.copies, x, y);
    made.add_copy()
}

// The copies of a chain of any length: where it is longer than a stretch those of the far part first, then those of the stretch from x on.
pub fn make_chain<T: Target>(
    target: T,
    places: &&[u16],
    list: &mut [T::Item],
    x: usize,
    left: usize,
    tally: Tally,
) -> Tally
    requires { Inside places.now.now left x × (length places.now.now ≤ SLOTS) × (tally.copies + left ≤ COPIES) × T.ready target (length places.now.now) (tally.copies + left) (length list.old) }
    ensures counts { result ≡ plus_copies left tally }
    ensures copies { list.new ≡ made (T.step target) tally.copies (shift x (steps (dest places.now.now) left x)) list.old }
{
    if left <= walks::STRETCH {
        return make_shift(target, places, list, x, left, tally);
    }
    let far = walks::slot_after(places, x, walks::STRETCH);
    let made = make_chain(target, places, list, far, left - walks::STRETCH, tally);
    make_shift(target, places, list, x, walks::STRETCH, made)
}
