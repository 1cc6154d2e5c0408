// A selector carries a program over a tree by the calls load, rise, fall and tally.
#![tactic(auto)]

pub mod calls;
mod falling;
pub mod fault;
pub mod keys;
mod marking;
pub mod phase;
mod rising;
pub mod seen;
pub mod selector;
