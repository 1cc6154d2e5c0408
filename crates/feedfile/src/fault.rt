// The number and the place of a fault of a feed file.
ghost use Rattle.std.specs.Prelude.{◌≡◌};
ghost use Rattle.feedfile.specs.Faults.{code_of, place_of};

use crate::command::FileFault;

impl FileFault {
    // The number by which a refusal is known: 7, or the feed's own (by a match, since the cases have fields).
    pub fn code(self) -> u8
        ensures { result ≡ code_of self }
    {
        match self {
            FileFault::Unknown { .. } => 7,
            FileFault::Refused { fault, .. } => fault.code(),
        }
    }

    // The place of the command, counted from 0.
    pub fn place(self) -> usize
        ensures { result ≡ place_of self }
    {
        match self {
            FileFault::Unknown { place } | FileFault::Refused { place, .. } => place,
        }
    }
}
