// Queues: for each rack, the cards that wait to come to it, and the free slots as a set.
#![tactic(auto)]

pub mod parts;
