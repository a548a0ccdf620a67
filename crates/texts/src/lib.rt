// Text in a lent buffer: words and numbers, arrows, the lines of a listing.
#![tactic(auto)]

pub mod parts;

// The most bytes of a file that is not refused with 18.
pub const FILE: usize = 32768;

// A buffer of so many bytes is long enough for the text of every file.
pub const ENOUGH: usize = 245818;
