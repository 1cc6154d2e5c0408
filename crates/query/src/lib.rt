// A query that was read: a value of its own, with its text, its steps and its predicates; and why a text is refused.
#![tactic(auto)]

ghost use Rattle.std.specs.Prelude.{◌≡◌, Some};
ghost use Rattle.query.specs.Faults.{code_of, place_of, line_of};

pub mod fault;
pub mod parsed;
pub mod table;

use fault::Fault;
use std::error::Error;
use std::fmt;

impl Fault {
    // The number of the refusal: by a match, since `as` takes no enum whose cases have fields.
    pub fn code(self) -> u8
        ensures { result ≡ code_of self }
    {
        match self {
            Fault::Long => 1,
            Fault::NoToken(_) => 2,
            Fault::LongName(_) => 3,
            Fault::Syntax(_) => 4,
            Fault::Deep(_) => 5,
            Fault::Many(_) => 6,
        }
    }

    // Where the text is refused.
    pub fn place(self) -> usize
        ensures { result ≡ place_of self }
    {
        match self {
            Fault::Long => 512,
            Fault::NoToken(at)
            | Fault::LongName(at)
            | Fault::Syntax(at)
            | Fault::Deep(at)
            | Fault::Many(at) => at,
        }
    }
}

impl fmt::Display for Fault {
    ghost output = { λ f. Some (line_of f) };

    fn fmt<W: fmt::Write>(&self, f: &mut fmt::Formatter<W>) -> fmt::Result {
        write!(f, "refused {} at {}", self.code(), self.place())
    }
}

impl Error for Fault {}
