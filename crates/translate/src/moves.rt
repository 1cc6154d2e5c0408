// The sending states, written from their end on.
ghost use Rattle.std.specs.Prelude.{◌≡◌, ◌+◌, ◌-◌, ◌≤◌, [], ◌∷◌, length};
ghost use Rattle.query.specs.Shown.{axis_of};
ghost use Rattle.translation.specs.Table.{axis_before, state_rules, sends};
ghost use Rattle.translation.specs.Written.{begin_code, keeping_code, going_code, rules_code, rules_codes};
ghost use Rattle.translate.specs.Writing.{HasRoom, Puts};

use crate::bytes::Writer;
use commands::command::{Command, Move};
use query::parsed::Query;
use query::table::Axis;

// The move that begins a step along the axis. put_beginning and put_looking match the axis likewise, for atoms and in another
// order: what they share is the match alone.
fn put_begin(out: &mut Writer<'_>, axis: Axis, state: u8)
    requires { HasRoom out.old 2 }
    ensures { Puts out.old out.new (begin_code (axis_of axis) state) }
{
    let step = match axis {
        Axis::SelfNode => Move::Stay(state),
        Axis::Child | Axis::Descendant => Move::Down(state),
        Axis::FollowingSibling => Move::On(state),
    };
    out.put(Command::Make(step));
}

// A state is a number of 0 to the outside steps of the query beside it: a type of its own would have to hold the query.

// What the state does where its step's deciding state holds: it begins the next step, or marks.
fn put_going(query: &Query, out: &mut Writer<'_>, state: u8)
    requires within { state ≤ query.now.table.outside_count }
    requires room { HasRoom out.old (length (going_code query.now.table state (query.now.table.outside_count - state))) }
    ensures { Puts out.old out.new (going_code query.now.table state (query.now.table.outside_count - state)) }
{
    if state < query.table.outside_count {
        let step = query.table.outside[state as usize];
        put_begin(out, step.axis, state + 1);
    } else {
        out.put(Command::Make(Move::Mark));
    }
}

fn put_down(out: &mut Writer<'_>, state: u8)
    requires { HasRoom out.old 2 }
    ensures { Puts out.old out.new (0x21 ∷ state ∷ []) }
{
    out.put(Command::Make(Move::Down(state)));
}

// The rule by which the state keeps looking along the axis, where `everywhere` holds.
fn put_keeping(out: &mut Writer<'_>, axis: Axis, everywhere: u8, state: u8)
    requires { HasRoom out.old (length (keeping_code (axis_of axis) everywhere state)) }
    ensures { Puts out.old out.new (keeping_code (axis_of axis) everywhere state) }
{
    match axis {
        Axis::SelfNode => {}
        Axis::Child | Axis::FollowingSibling => put_sideways(out, everywhere, state),
        Axis::Descendant => {
            out.put(Command::Make(Move::On(state)));
            put_down(out, state);
            out.put(Command::When(everywhere));
        }
    }
}

fn put_sideways(out: &mut Writer<'_>, everywhere: u8, state: u8)
    requires { HasRoom out.old 4 }
    ensures { Puts out.old out.new (0x20 ∷ everywhere ∷ 0x22 ∷ state ∷ []) }
{
    out.put(Command::Make(Move::On(state)));
    out.put(Command::When(everywhere));
}

// The axis along which a state looks; state 0 is that of the root.
fn axis_before(query: &Query, state: u8) -> Axis
    requires { state ≤ query.now.table.outside_count }
    ensures { axis_of result ≡ axis_before query.now.table state }
{
    if state == 0 {
        Axis::SelfNode
    } else {
        query.table.outside[state as usize - 1].axis
    }
}

// A sending state.
fn put_state(query: &Query, out: &mut Writer<'_>, state: u8)
    requires within { state ≤ query.now.table.outside_count }
    requires room { HasRoom out.old (length (rules_code (state_rules query.now.table state (query.now.table.outside_count - state)))) }
    ensures { Puts out.old out.new (rules_code (state_rules query.now.table state (query.now.table.outside_count - state))) }
{
    let axis = axis_before(query, state);
    let everywhere = query.table.inside_count;
    out.put(Command::Done);
    put_going(query, out, state);
    out.put(Command::When(everywhere + state));
    put_keeping(out, axis, everywhere, state);
}

// All sending states, in order.
pub(crate) fn put_states(query: &Query, out: &mut Writer<'_>)
    requires { HasRoom out.old (length (rules_codes (sends query.now.table 0 (query.now.table.outside_count + 1)))) }
    ensures { Puts out.old out.new (rules_codes (sends query.now.table 0 (query.now.table.outside_count + 1))) }
{
    // by number: states are the steps outside brackets and one more
    for state in (0..query.table.outside_count + 1).rev() {
        put_state(query, out, state);
    }
}
