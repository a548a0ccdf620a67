// A job file taken apart: its capacities, its entries and its card bytes.
#![tactic(auto)]

pub mod parts;

// What the file reader gives: N, B, S and where the card bytes begin.
#[derive(Clone, Copy)]
pub struct FileJob {
    pub racks: usize,
    pub bytes: usize,
    pub slots: usize,
    pub start: usize,
}
