// The tableau, a phase point on up to 64 qubits, and its snapshot, a value sheet.
#![tactic(auto)]

pub mod snapshot;
pub mod tableau;
#[cfg(test)]
mod tests;
