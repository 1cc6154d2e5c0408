// Calls to a selector, and their answers.
use selector::fault::Fault;

// A tally names its kind by number, since the kinds are an open list of types.
#[derive(Clone, Copy)]
pub enum Call<'a> {
    Load(&'a [u8]),
    Rise(usize),
    Fall(usize),
    Tally { kind: u8, lo: usize, hi: usize },
}

// What a granted call gives.
#[derive(Clone, Copy, Debug, PartialEq, Eq)]
pub enum Reply<S> {
    Loaded,
    Left(usize),
    Value(S),
}

pub type Answer<S> = Result<Reply<S>, Fault>;
