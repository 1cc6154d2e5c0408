// Programs as bytes: the check of their rules, and what their deciding states say at one node.
#![tactic(auto)]

pub mod check;
pub mod deciding;
pub mod decode;
pub mod fault;
pub mod rules;
mod stack;
