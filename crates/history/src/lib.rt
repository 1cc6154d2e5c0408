// Lists of calls to a selector, and what the answers to them amount to.
#![tactic(auto)]

pub mod calls;
pub mod held;
