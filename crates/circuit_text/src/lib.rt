// The text of a circuit, read line by line.
#![tactic(auto)]

pub mod line;
mod read;
pub mod reader;
#[cfg(test)]
mod tests;
