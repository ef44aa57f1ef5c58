// Sessions over any phase point and any coin source.
#![tactic(auto)]

pub mod playing;
pub mod session;
