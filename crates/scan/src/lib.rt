// The directory of parentheses, and the check of a tree's buffers.
#![tactic(auto)]

pub mod bits;
pub mod block;
pub mod check;
pub mod directory;
mod measure;
mod nesting;
