// The parts of a writer of spellings.

// Why a spelling is refused: a list of its own, as each kind of call has one, though a translation has the same case.
#[derive(Clone, Copy, Debug, PartialEq, Eq)]
pub enum Fault {
    // memory is too small
    Memory = 11,
}

// Where a predicate stands: alone, beside the right of `or` or the left of `and`, beside the right of `and`.
#[derive(Clone, Copy, Debug, PartialEq, Eq, PartialOrd, Ord)]
pub enum Place {
    Low,
    Middle,
    High,
}
