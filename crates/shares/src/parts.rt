// What the phase plan stands on: how many pairs each target gets, and its cards and its free slots, put into its own share of the list.
pub mod cards;
pub mod openings;
pub mod targets;
