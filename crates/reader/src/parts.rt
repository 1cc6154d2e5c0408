// The parts of a reader of queries.
use lexer::Reader;
use query::table::{Axis, NodeTest, Table};

// What leads to a step. Three cases with names: is_far puts Nothing and Slash together, is_slash the two slashes, so an Option
// would be matched twice.
#[derive(Clone, Copy, Debug, PartialEq, Eq)]
pub enum Lead {
    Nothing,
    Slash,
    DoubleSlash,
}

// A step without its bracket.
#[derive(Clone, Copy, Debug, PartialEq, Eq)]
pub struct Head {
    pub axis: Axis,
    pub test: NodeTest,
}

// A reader and the table that it has written.
#[derive(Drop)]
pub struct Parser<'a> {
    pub reader: Reader<'a>,
    pub table: Table,
}
