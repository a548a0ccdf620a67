// The pairs of a phase, from the queues and the free slots.
#![tactic(auto)]

pub mod parts;
