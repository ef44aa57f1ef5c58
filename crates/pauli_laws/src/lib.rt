// The laws of labels, rows and gates. Nothing here computes: each function is a theorem, and its contract is the statement.
#![tactic(auto)]

pub mod gate;
pub mod label;
pub mod row;
pub mod space;
