// The deciding states of steps, written from their end on.
ghost use Rattle.std.specs.Prelude.{◌≡◌, ◌+◌, ◌/◌, ◌%◌, ◌<◌, ◌≤◌, [], ◌∷◌, ◌++◌, length, take, drop};
ghost use Rattle.query.specs.Shown.{axis_of};
ghost use Rattle.translation.specs.Table.{bracket_says, next_says, GoodTest, GoodBracket, GoodNext, GoodStep};
ghost use Rattle.translation.specs.Written.{code, both_code, looking_code};
ghost use Rattle.translate.specs.Outcome.{text_in};
ghost use Rattle.translate.specs.Writing.{HasRoom, Puts, test_of, step_of, inside_of, outside_of};

use crate::bytes::Writer;
use crate::formulas::{put_asks, put_predicate};
use crate::query_rows::Rows;
use commands::command::{Atom, Command, Kind};
use names::store::label_of;
use query::parsed::Query;
use query::table::{Axis, NodeTest, Step};

// A part of a text.
fn part(text: &[u8], from: u16, len: u8) -> &[u8]
    requires { from + len ≤ length text.now }
    ensures { result.now ≡ take len (drop from text.now) }
{
    let start = from as usize;
    &text[start..start + len as usize]
}

// Any element.
fn put_element(out: &mut Writer<'_>)
    requires { HasRoom out.old 2 }
    ensures { Puts out.old out.new (0x10 ∷ 2 ∷ []) }
{
    out.put(Command::Value(Atom::Kind(Kind::Element)))
}

// An element of the label.
fn put_named(out: &mut Writer<'_>, label: u16)
    requires { HasRoom out.old 6 }
    ensures { Puts out.old out.new (0x10 ∷ 2 ∷ 0x11 ∷ label / 256 ∷ label % 256 ∷ 0x18 ∷ []) }
{
    out.put(Command::And);
    out.put(Command::Value(Atom::Label(label)));
    put_element(out);
}

// What the bracket says besides, if there is one.
fn put_bracket(query: &Query, out: &mut Writer<'_>, bracket: Option<u8>)
    requires good { GoodBracket query.now.table bracket }
    requires room { HasRoom out.old (length (both_code (bracket_says query.now.table bracket))) }
    ensures { Puts out.old out.new (both_code (bracket_says query.now.table bracket)) }
{
    if let Some(index) = bracket {
        out.put(Command::And);
        put_predicate(query, out, index);
    }
}

// What the step after says besides, if there is one. A closure for what follows the AND would need the clauses of both
// calls as its own, so put_bracket stands beside it.
fn put_next(query: &Query, out: &mut Writer<'_>, next: Option<u8>)
    requires good { GoodNext query.now.table next }
    requires room { HasRoom out.old (length (both_code (next_says query.now.table next))) }
    ensures { Puts out.old out.new (both_code (next_says query.now.table next)) }
{
    if let Some(index) = next {
        out.put(Command::And);
        put_asks(query, out, index);
    }
}

// The state itself, further along the axis.
fn put_looking(out: &mut Writer<'_>, axis: Axis, state: u8)
    requires { HasRoom out.old (length (looking_code (axis_of axis) state)) }
    ensures { Puts out.old out.new (looking_code (axis_of axis) state) }
{
    match axis {
        Axis::SelfNode => {}
        Axis::Child | Axis::FollowingSibling => put_onward(out, state),
        Axis::Descendant => {
            out.put(Command::Or);
            put_onward(out, state);
            out.put(Command::Value(Atom::First(state)));
        }
    }
}

fn put_onward(out: &mut Writer<'_>, state: u8)
    requires { HasRoom out.old 3 }
    ensures { Puts out.old out.new (0x14 ∷ state ∷ 0x19 ∷ []) }
{
    out.put(Command::Or);
    out.put(Command::Value(Atom::Next(state)));
}

// A node test.
fn put_test(rows: &Rows<'_>, out: &mut Writer<'_>, test: NodeTest)
    requires good { GoodTest (text_in rows.now.query.now) test }
    requires room { HasRoom out.old (length (code (test_of rows.now test))) }
    ensures { Puts out.old out.new (code (test_of rows.now test)) }
{
    match test {
        NodeTest::Element => put_element(out),
        NodeTest::Name { at: from, len } => {
            let label = label_of(rows.names, part(&rows.query.text, from, len));
            put_named(out, label);
        }
        NodeTest::Text => out.put(Command::Value(Atom::Kind(Kind::Text))),
        NodeTest::Node => out.put(Command::Value(Atom::True)),
    }
}

// Whether a node passes a step's test and bracket.
fn put_step(rows: &Rows<'_>, out: &mut Writer<'_>, step: Step)
    requires good { GoodStep (text_in rows.now.query.now) rows.now.query.now.table step }
    requires room { HasRoom out.old (length (code (step_of rows.now step))) }
    ensures { Puts out.old out.new (code (step_of rows.now step)) }
{
    put_bracket(rows.query, out, step.bracket);
    put_test(rows, out, step.test);
}

// The state of an inside step.
pub(crate) fn put_inside(rows: &Rows<'_>, out: &mut Writer<'_>, i: u8)
    requires within { i < rows.now.query.now.table.inside_count }
    requires room { HasRoom out.old (1 + length (code (inside_of rows.now i))) }
    ensures { Puts out.old out.new (code (inside_of rows.now i) ++ (0x1f ∷ [])) }
{
    let table = &rows.query.table;
    let step = table.inside[i as usize];
    out.put(Command::Define);
    put_looking(out, step.axis, table.inside_count - (i + 1));
    put_next(rows.query, out, step.next);
    put_step(rows, out, step);
}

// The state of an outside step.
pub(crate) fn put_outside(rows: &Rows<'_>, out: &mut Writer<'_>, i: u8)
    requires within { i < rows.now.query.now.table.outside_count }
    requires room { HasRoom out.old (1 + length (code (outside_of rows.now i))) }
    ensures { Puts out.old out.new (code (outside_of rows.now i) ++ (0x1f ∷ [])) }
{
    let step = rows.query.table.outside[i as usize];
    out.put(Command::Define);
    put_step(rows, out, step);
}
