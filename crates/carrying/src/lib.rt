// Cards carried: bytes and entries moved from slot to slot.
#![tactic(auto)]

pub mod parts;
