// Any list of calls to a new selector, and the law of their answers.
#![tactic(auto)]

pub mod kinds;
pub mod run;
