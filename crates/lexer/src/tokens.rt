// The tokens of a query text, with their places.
use grammar::tokens::Symbol;

// A name borrows the text.
#[derive(Clone, Copy)]
pub enum Token<'a> {
    Symbol(Symbol),
    Name(&'a [u8]),
    End,
}

// A token, where it begins and where it ends.
#[derive(Clone, Copy)]
pub struct Reach<'a> {
    pub token: Token<'a>,
    pub at: usize,
    pub end: usize,
}

// A name and where it begins.
#[derive(Clone, Copy)]
pub struct Word<'a> {
    pub bytes: &'a [u8],
    pub at: usize,
}
