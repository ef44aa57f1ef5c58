// Circuits, run line by line.
#![tactic(auto)]

pub mod play;
