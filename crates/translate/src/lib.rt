// From a query and a name store to the bytes of a program that marks what the query selects.
#![tactic(auto)]

ghost use Rattle.std.specs.Prelude.{◌≡◌, ◌≤◌, length};
ghost use Rattle.commands.specs.Encoded.{encoded};
ghost use Rattle.translation.specs.Written.{states_code};
ghost use Rattle.translate.specs.Faults.{code_of};
ghost use Rattle.translate.specs.Outcome.{Granted, Translated};
ghost use Rattle.translate.specs.Writing.{HasRoom, Puts, insides_of, outsides_of, program_in};

mod bytes;
pub mod fault;
mod formulas;
mod moves;
mod query_rows;
mod steps;

use bytes::Writer;
use commands::command::{Atom, Command};
use fault::Fault;
use moves::put_states;
use names::slot::Slot;
use query::parsed::Query;
use query_rows::Rows;
use steps::{put_inside, put_outside};

impl Fault {
    // The number of the refusal.
    pub fn code(self) -> u8
        ensures { result ≡ code_of self }
    {
        self as u8
    }
}

// The states of the steps outside brackets, in order.
fn put_outsides(rows: &Rows<'_>, out: &mut Writer<'_>)
    requires { HasRoom out.old (length (states_code (outsides_of rows.now))) }
    ensures { Puts out.old out.new (states_code (outsides_of rows.now)) }
{
    // by number: the number of a step is that of its state
    for step in (0..rows.query.table.outside_count).rev() {
        put_outside(rows, out, step);
    }
}

// The states of the steps in brackets, those of the last step first.
fn put_insides(rows: &Rows<'_>, out: &mut Writer<'_>)
    requires { HasRoom out.old (length (states_code (insides_of rows.now))) }
    ensures { Puts out.old out.new (states_code (insides_of rows.now)) }
{
    // by number, likewise
    for step in 0..rows.query.table.inside_count {
        put_inside(rows, out, step);
    }
}

// Writes the whole program from its end on.
fn put_program(rows: &Rows<'_>, out: &mut Writer<'_>)
    requires { HasRoom out.old 2048 }
    ensures { Puts out.old out.new (encoded (program_in rows.now)) }
{
    out.put(Command::End);
    put_states(rows.query, out);
    put_outsides(rows, out);
    out.put(Command::Define);
    out.put(Command::Value(Atom::True));
    put_insides(rows, out);
}

// Writes the program, where there is memory for any.
fn write_program(query: &Query, names: &[Slot], out: &mut [u8]) -> usize
    requires { 2048 ≤ length out.old }
    ensures { Granted names.now query.now out.old out.new result }
{
    let mut writer = Writer::new(out);
    put_program(&Rows { query, names }, &mut writer);
    writer.finish()
}

// Translates the query for trees whose labels the store names: writes the bytes of a program that marks exactly what the
// query selects, and gives their number.
pub fn translate(query: &Query, names: &[Slot], out: &mut [u8]) -> Result<usize, Fault>
    ensures { Translated names.now query.now out.old out.new result }
{
    if out.len() < 2048 {
        return Err(Fault::Memory);
    }
    Ok(write_program(query, names, out))
}
