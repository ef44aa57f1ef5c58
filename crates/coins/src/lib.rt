// Coin sources: an interface, coins read from a text, and coins made by a shift register.
#![tactic(auto)]

pub mod register;
pub mod source;
#[cfg(test)]
mod tests;
pub mod text;
