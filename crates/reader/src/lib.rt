// Reads a query text.
#![tactic(auto)]

ghost use Rattle.std.specs.Prelude.{◌≡◌, ◌<◌, ◌≤◌, length, take};
ghost use Rattle.grammar.specs.Claims.{Sound, Complete, Unambiguous, Code4, Limits};
ghost use Rattle.reader.specs.Answers.{Answers, Parsed};

mod heads;
mod parse;
pub mod parts;
mod rows;

use lexer::Reader;
use parts::Parser;
use query::fault::Fault;
use query::parsed::Query;
use query::table::{Axis, NodeTest, Predicate, Region, Shape, Step, Table};

// What stands in the rows past the counts.
const STEP: Step = Step {
    slash: false,
    axis: Axis::Child,
    test: NodeTest::Element,
    bracket: None,
    next: None,
};

const PREDICATE: Predicate = Predicate {
    negations: 0,
    shape: Shape::Path(0),
};

// A table without rows.
const EMPTY: Table = Table {
    outside: [STEP; 16],
    outside_count: 0,
    inside: [STEP; 23],
    inside_count: 0,
    predicates: [PREDICATE; 46],
    predicate_count: 0,
};

// The bytes of a text, and then zeros.
fn copied(text: &[u8]) -> [u8; 512]
    requires { length text.now < 513 }
    ensures { take (length text.now) result ≡ text.now }
{
    let mut copy = [0; 512];
    copy[..text.len()].copy_from_slice(text);
    copy
}

// The table of the query that a short text is.
fn parsed(text: &[u8]) -> Result<Table, Fault>
    requires { length text.now < 513 }
    ensures { Parsed text.now result }
{
    let mut parser = Parser {
        reader: Reader::new(text),
        table: EMPTY,
    };
    parser.path(Region::Outside, 12)?;
    if parser.reader.at_end() {
        Ok(parser.table)
    } else {
        Err(parser.reader.unexpected())
    }
}

// The query that a text is. Its contract also says that it is accepted exactly when the grammar has it within the
// limits, as one query at most, and that each refusal stands where its code says.
pub fn read(text: &[u8]) -> Result<Query, Fault>
    ensures answer { Answers text.now result }
    ensures sound { Sound }
    ensures complete { Complete }
    ensures unambiguous { Unambiguous }
    ensures grammar { Code4 }
    ensures limits { Limits }
{
    if text.len() > grammar::most_bytes() {
        return Err(Fault::Long);
    }
    let table = parsed(text)?;
    Ok(Query {
        text: copied(text),
        len: text.len() as u16,
        table,
    })
}
