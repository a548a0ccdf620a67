// Cards brought to the slots that they are bound for, along chains and by the hand.
#![tactic(auto)]

pub mod parts;
