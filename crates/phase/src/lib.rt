// Value sheets and phase points: what they mean, what they answer, and the four cases of a measured label.
#![tactic(auto)]

pub mod cases;
pub mod point;
pub mod sheet;
