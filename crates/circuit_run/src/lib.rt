// A circuit's text, run on a tableau from its first byte to its last line.
#![tactic(auto)]

pub mod output;
pub mod report;
pub mod run;
#[cfg(test)]
mod tests;
