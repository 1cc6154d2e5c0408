// The commands of a feed file, and why one is refused.
use growth::command::Command;
use growth::fault::Fault;

#[derive(Clone, Copy, Debug, PartialEq, Eq)]
pub enum FileCommand {
    // a command that a growing feed takes
    Feed(Command),
    // the end of the feed
    Seal,
}

// A fault with the place of its command, counted from 0.
#[derive(Clone, Copy, Debug, PartialEq, Eq)]
pub enum FileFault {
    // a command is unknown or cut short, or SEAL is missing
    Unknown { place: usize },
    // the feed refused the command
    Refused { fault: Fault, place: usize },
}
