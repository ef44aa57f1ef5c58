// The entries of a journal, and each entry's one line of text, written and read.
#![tactic(auto)]

pub mod entry;
pub mod event;
pub mod lines;
mod parts;
mod rules;
#[cfg(test)]
mod tests;
