// The fields of comma-separated lines: read exactly, one at a time, and written whole lines at a time.
#![tactic(auto)]

pub mod end;
pub mod limits;
pub mod read;
pub mod stop;
#[cfg(test)]
mod tests;
pub mod write;
