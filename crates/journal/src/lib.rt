// The journal of a run: up to 512 entries in their order; and entries in plain words.
#![tactic(auto)]

pub mod explain;
mod journal;
pub mod words;

pub use journal::Journal;

#[cfg(test)]
mod tests;
