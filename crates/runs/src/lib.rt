// Runs of a session: its calls and answers, what each call does, and the promises about every run.
#![tactic(auto)]

pub mod answer;
pub mod call;
pub mod promises;
