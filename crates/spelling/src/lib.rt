// Writes the short spelling of a query.
#![tactic(auto)]

ghost use Rattle.std.specs.Prelude.{◌≡◌, ◌≤◌, Some, false, length, take};
ghost use Rattle.grammar.specs.Machine.{outcome, accepted};
ghost use Rattle.grammar.specs.Spelling.{spell as short};
ghost use Rattle.query.specs.Queries.{query_of};
ghost use Rattle.spelling.specs.Answers.{Spelt, Written, code_of, line_of};

pub mod parts;
mod spell;
mod tokens;
pub mod writer;

use parts::Fault;
use query::parsed::Query;
use query::table::Region;
use spell::step_at;
use std::error::Error;
use std::fmt;
use writer::Writer;

impl Fault {
    // The number of the refusal.
    pub fn code(self) -> u8
        ensures { result ≡ code_of self }
    {
        self as u8
    }
}

impl fmt::Display for Fault {
    ghost output = { λ f. Some (line_of f) };

    fn fmt<W: fmt::Write>(&self, f: &mut fmt::Formatter<W>) -> fmt::Result {
        match self {
            Fault::Memory => f.write_str("the memory is too small"),
        }
    }
}

impl Error for Fault {}

// Writes the whole spelling, with a writer that has written nothing.
fn spell_whole(writer: &mut Writer, query: &Query)
    requires len { writer.old.len ≡ 0 }
    requires word { writer.old.word ≡ false }
    ensures { take writer.new.len writer.new.bytes ≡ short (query_of query.now) }
{
    let Some(step) = step_at(query, Region::Outside, 0) else {
        return;
    };
    writer.write_steps(query, Region::Outside, Some(0), step.slash, 46);
}

// The whole spelling.
fn spelled(query: &Query) -> Writer
    ensures { take result.len result.bytes ≡ short (query_of query.now) }
{
    let mut writer = Writer::new();
    spell_whole(&mut writer, query);
    writer
}

// Writes the spelling into the memory, and gives its length.
fn written(query: &Query, memory: &mut [u8]) -> usize
    requires { 512 ≤ length memory.old }
    ensures { Written (query_of query.now) result memory.old memory.new }
{
    let writer = spelled(query);
    memory[..writer.len].copy_from_slice(&writer.bytes[..writer.len]);
    writer.len
}

// Holds what is proved of the spelling of a query.
fn laws_stand(query: &Query)
    ensures back { outcome (short (query_of query.now)) ≡ accepted (query_of query.now) }
    ensures shortest { length (short (query_of query.now)) ≤ query.now.len }
{}

// Writes the short spelling of a query into the memory, which has 512 bytes or more, and gives its length; the bytes
// past it stay. It is read as the same query, and is no longer than the text that the query was read from.
pub fn write_spelling(query: &Query, memory: &mut [u8]) -> Result<usize, Fault>
    ensures answer { Spelt (query_of query.now) result memory.old memory.new }
    ensures back { outcome (short (query_of query.now)) ≡ accepted (query_of query.now) }
    ensures shortest { length (short (query_of query.now)) ≤ query.now.len }
{
    laws_stand(query);
    if memory.len() < 512 {
        return Err(Fault::Memory);
    }
    Ok(written(query, memory))
}
