// Feed files: the commands of a feed as bytes.
#![tactic(auto)]

pub mod command;
mod decode;
pub mod fault;
mod laws;
pub mod opcode;
pub mod read;
