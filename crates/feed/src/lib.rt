// Feeding a tree: a growing feed takes nodes one by one, and a sealed feed makes the tree.
#![tactic(auto)]

mod bit;
pub mod growing;
mod laws;
pub mod sealed;
pub mod types;
