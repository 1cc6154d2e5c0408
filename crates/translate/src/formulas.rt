// The formulas of deciding states, written from their end on.
ghost use Rattle.std.specs.Prelude.{◌≡◌, ◌<◌, ◌≤◌, length};
ghost use Rattle.query.specs.Shown.{axis_of};
ghost use Rattle.translation.specs.Table.{asks_at, said, Reaching};
ghost use Rattle.translation.specs.Written.{code, beginning_code};
ghost use Rattle.translate.specs.Writing.{HasRoom, Puts};

use crate::bytes::Writer;
use commands::command::{Atom, Command};
use query::parsed::Query;
use query::table::{Axis, Shape};

// A state, where a step along the axis begins to look.
fn put_beginning(out: &mut Writer<'_>, axis: Axis, state: u8)
    requires { HasRoom out.old 2 }
    ensures { Puts out.old out.new (beginning_code (axis_of axis) state) }
{
    let atom = match axis {
        Axis::SelfNode => Atom::Here(state),
        Axis::Child | Axis::Descendant => Atom::First(state),
        Axis::FollowingSibling => Atom::Next(state),
    };
    out.put(Command::Value(atom));
}

// What asks for an inside step and those after it.
pub(crate) fn put_asks(query: &Query, out: &mut Writer<'_>, step: u8)
    requires within { step < query.now.table.inside_count }
    requires room { HasRoom out.old 2 }
    ensures { Puts out.old out.new (code (asks_at query.now.table step)) }
{
    let asked = query.table.inside[step as usize];
    put_beginning(out, asked.axis, query.table.inside_count - (step + 1));
}

// Each of the three below is about the predicate of its own number, so each asks that this one is reached.

// What a predicate says: a loop along the left sides of `or`. A call comes back here only for a predicate that is
// grouped or negated, so calls nest by level.
#[cycle(put_conjunction_put_member_put_predicate)]
pub(crate) fn put_predicate(query: &Query, out: &mut Writer<'_>, index: u8)
    requires reaching { Reaching query.now.table index }
    requires room { HasRoom out.old (length (code (said query.now.table index))) }
    ensures { Puts out.old out.new (code (said query.now.table index)) }
{
    let mut left = index;
    loop {
        let predicate = query.table.predicates[left as usize];
        match predicate.shape {
            Shape::Or(first, second) => {
                out.put_nots(predicate.negations);
                out.put(Command::Or);
                put_conjunction(query, out, second);
                left = first;
            }
            _ => return put_conjunction(query, out, left),
        }
    }
}

// A side of `or`: a loop along the left sides of `and`.
#[cycle(put_conjunction_put_member_put_predicate)]
fn put_conjunction(query: &Query, out: &mut Writer<'_>, index: u8)
    requires reaching { Reaching query.now.table index }
    requires room { HasRoom out.old (length (code (said query.now.table index))) }
    ensures { Puts out.old out.new (code (said query.now.table index)) }
{
    let mut left = index;
    loop {
        let predicate = query.table.predicates[left as usize];
        match predicate.shape {
            Shape::Path(step) => {
                out.put_nots(predicate.negations);
                return put_asks(query, out, step);
            }
            Shape::And(first, second) => {
                out.put_nots(predicate.negations);
                out.put(Command::And);
                put_member(query, out, second);
                left = first;
            }
            Shape::Or(_, _) => return put_predicate(query, out, left),
        }
    }
}

// A right side of `and`: a path, or a predicate that is grouped or negated.
#[cycle(put_conjunction_put_member_put_predicate)]
fn put_member(query: &Query, out: &mut Writer<'_>, index: u8)
    requires reaching { Reaching query.now.table index }
    requires room { HasRoom out.old (length (code (said query.now.table index))) }
    ensures { Puts out.old out.new (code (said query.now.table index)) }
{
    let predicate = query.table.predicates[index as usize];
    match predicate.shape {
        Shape::Path(step) => {
            out.put_nots(predicate.negations);
            put_asks(query, out, step);
        }
        _ => put_predicate(query, out, index),
    }
}
