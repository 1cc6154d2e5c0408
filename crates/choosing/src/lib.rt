// From the bytes of a feed and a query to the text that is printed.
#![tactic(auto)]

pub mod choose;
pub mod chosen;
mod memory;
mod report;
mod select_text;
