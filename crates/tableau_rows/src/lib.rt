// The rows of a tableau: what stands in them, and what gates and measurements make of them. Nothing here asks for the pattern.
#![tactic(auto)]

pub mod store;
