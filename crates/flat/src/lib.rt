// What C is given: the answers as structs of plain numbers.
#![tactic(auto)]

pub mod parts;

// What every call gives: a number of the rules' list, the place that goes with it, and the counts.
#[repr(C)]
#[derive(Clone, Copy)]
pub struct Answer {
    pub number: usize,
    pub place: usize,
    pub phases: usize,
    pub moves: usize,
    pub copies: usize,
}

// What the slot question gives: kind 1 user slot or 2 spare; state 1 free, 2 settled, 3 unsettled or 4 away, with the rack; 0 for none.
#[repr(C)]
#[derive(Clone, Copy)]
pub struct SlotAnswer {
    pub number: usize,
    pub place: usize,
    pub phases: usize,
    pub moves: usize,
    pub copies: usize,
    pub kind: usize,
    pub state: usize,
    pub rack: usize,
}

// What the file reader gives: N, B, S and where the card bytes begin; all of these 0 on a refusal.
#[repr(C)]
#[derive(Clone, Copy)]
pub struct FileAnswer {
    pub number: usize,
    pub place: usize,
    pub phases: usize,
    pub moves: usize,
    pub copies: usize,
    pub racks: usize,
    pub bytes: usize,
    pub slots: usize,
    pub start: usize,
}

// What a call gives that writes bytes into a lent buffer: the number, its place, and how many bytes it wrote; 0 on a refusal.
#[repr(C)]
#[derive(Clone, Copy)]
pub struct SizeAnswer {
    pub number: usize,
    pub place: usize,
    pub phases: usize,
    pub moves: usize,
    pub copies: usize,
    pub size: usize,
}
