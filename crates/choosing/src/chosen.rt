// Why an input has no text.
ghost use Rattle.std.specs.Prelude.{◌≡◌, Some};
ghost use Rattle.choosing.specs.Choosing.{code_of, place_of, refusal_text};

use feedfile::command::FileFault;
use query::fault::Fault as QueryFault;
use std::alloc::AllocError;
use std::error::Error;
use std::fmt;

// The most bytes that an input may have.
pub(crate) const MOST_BYTES: usize = 65536;

// Why an input is refused.
#[derive(Clone, Copy, Debug, PartialEq, Eq)]
pub enum Fault {
    // it has more than 65,536 bytes
    TooLong,
    // its feed is refused
    Feed(FileFault),
    // its query is refused
    Query(QueryFault),
}

impl Fault {
    // The number by which a refusal is known: by a match, since cases have fields.
    pub fn code(self) -> u8
        ensures { result ≡ code_of self }
    {
        match self {
            Fault::TooLong => 11,
            Fault::Feed(fault) => fault.code(),
            Fault::Query(fault) => fault.code(),
        }
    }

    // The place, counted in the feed or in the query.
    pub fn place(self) -> usize
        ensures { result ≡ place_of self }
    {
        match self {
            Fault::TooLong => MOST_BYTES,
            Fault::Feed(fault) => fault.place(),
            Fault::Query(fault) => fault.place(),
        }
    }
}

// the line that a query prints of its own refusals, for feeds and lengths too
impl fmt::Display for Fault {
    ghost output = { λ f. Some (refusal_text f) };

    fn fmt<W: fmt::Write>(&self, f: &mut fmt::Formatter<W>) -> fmt::Result {
        let code = self.code();
        let place = self.place();
        write!(f, "refused {code} at {place}")
    }
}

impl Error for Fault {}

// Why there is no text for an input.
#[derive(Clone, Copy, Debug, PartialEq, Eq)]
pub enum ChooseError {
    Refused(Fault),
    OutOfMemory,
}

impl fmt::Display for ChooseError {
    ghost use Rattle.choosing.specs.Choosing.{failure_text};

    // the line of a refusal; of want of memory nothing is said
    ghost output = { failure_text };

    fn fmt<W: fmt::Write>(&self, f: &mut fmt::Formatter<W>) -> fmt::Result {
        match self {
            ChooseError::Refused(fault) => fault.fmt(f),
            ChooseError::OutOfMemory => AllocError.fmt(f),
        }
    }
}

impl Error for ChooseError {}

impl From<FileFault> for ChooseError {
    ghost use Rattle.choosing.specs.declared.chosen.ChooseError.TheVariants.{Refused};
    ghost use Rattle.choosing.specs.declared.chosen.Fault.TheVariants.{Feed};

    ghost from_gives = { λ fault e. e ≡ Refused (Feed fault) };

    fn from(fault: FileFault) -> ChooseError {
        ChooseError::Refused(Fault::Feed(fault))
    }
}

impl From<QueryFault> for ChooseError {
    ghost use Rattle.choosing.specs.declared.chosen.ChooseError.TheVariants.{Refused};
    ghost use Rattle.choosing.specs.declared.chosen.Fault.TheVariants.{Query};

    ghost from_gives = { λ fault e. e ≡ Refused (Query fault) };

    fn from(fault: QueryFault) -> ChooseError {
        ChooseError::Refused(Fault::Query(fault))
    }
}

impl From<AllocError> for ChooseError {
    ghost use Rattle.choosing.specs.declared.chosen.ChooseError.TheVariants.{OutOfMemory};

    ghost from_gives = { λ _ e. e ≡ OutOfMemory };

    fn from(_error: AllocError) -> ChooseError {
        Self::OutOfMemory
    }
}
