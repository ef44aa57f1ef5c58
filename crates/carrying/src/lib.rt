// Carries one row through the gates of a text.
#![tactic(auto)]

pub mod carry;
pub mod report;
pub mod rows;
#[cfg(test)]
mod tests;
