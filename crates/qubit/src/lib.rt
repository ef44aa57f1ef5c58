// The smallest phase point there is to play on: one qubit, of width 1. Every label has a value.
#![tactic(auto)]

pub mod point;
