// The deciding states at one node.
ghost use Rattle.std.specs.Prelude.{◌≡◌};
ghost use Rattle.commands.specs.Commands.{commands_of};
ghost use Rattle.commands.specs.Deciding.{holds_at, decide};
ghost use Rattle.commands.specs.Asked.{with_command, asked as asked_of, nothing};

use crate::decode::Commands;
use crate::stack::Stack;
use commands::command::{Atom, Command, Kind};
use commands::node::{Asked, Node};
use words::{has_bit, put_bit, set_bit};

// whether the node is as the atom says; `word` has the lower states
fn holds(atom: Atom, node: Node, word: u64) -> bool
    ensures { result ≡ holds_at atom node word }
{
    match atom {
        Atom::Kind(Kind::Root) => node.label == 0,
        Atom::Kind(Kind::Text) => node.label == 1,
        Atom::Kind(Kind::Element) => node.label >= 2,
        Atom::Label(c) => node.label == c,
        Atom::True => true,
        Atom::First(p) => has_bit(node.first, p as usize),
        Atom::Next(p) => has_bit(node.next, p as usize),
        Atom::Here(p) => has_bit(word, p as usize),
    }
}

// The word of a node: bit i is set exactly where the deciding state i holds.
pub fn decided(program: &[u8], node: Node) -> u64
    ensures { result ≡ decide node (commands_of program.now) 0 0 0 }
{
    let mut stack = Stack::EMPTY;
    let mut word = 0;
    let mut state = 0;
    for command in Commands::new(program) {
        match command {
            Command::Value(atom) => stack = stack.push(holds(atom, node, word)),
            Command::And => stack = stack.join(|earlier, latest| earlier && latest),
            Command::Or => stack = stack.join(|earlier, latest| earlier || latest),
            Command::Not => stack = stack.turn(),
            Command::Define => {
                word = put_bit(word, state, stack.top());
                state += 1;
                stack = Stack::EMPTY;
            }
            _ => return word,
        }
    }
    word
}

// with what the command asks
fn with_command(command: Command, asked: Asked) -> Asked
    ensures { result ≡ with_command command asked }
{
    match command {
        Command::Value(Atom::First(p)) => Asked {
            first: set_bit(asked.first, p as usize),
            ..asked
        },
        Command::Value(Atom::Next(p)) => Asked {
            next: set_bit(asked.next, p as usize),
            ..asked
        },
        _ => asked,
    }
}

// The states that the formulas ask of a node's first child and next sibling.
pub fn asked(program: &[u8]) -> Asked
    ensures { result ≡ asked_of (commands_of program.now) nothing }
{
    Commands::new(program).fold(
        Asked { first: 0, next: 0 },
        |asked, command| with_command(command, asked),
    )
}
