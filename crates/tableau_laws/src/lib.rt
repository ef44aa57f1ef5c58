// The laws of tableaus. Nothing here computes: each function is a theorem, and its contract is the statement.
#![tactic(auto)]

pub mod rows;
pub mod rules;
pub mod worked;
