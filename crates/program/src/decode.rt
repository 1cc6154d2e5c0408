// The commands of a program's bytes.
ghost use Rattle.std.specs.Prelude.{◌≡◌, ◌≤◌, length};
ghost use Rattle.commands.specs.Bytes.{taken, split};
ghost use Rattle.commands.specs.Commands.{commands_of};

use commands::command::{Atom, Command, Kind, Move};

// The first command, and the bytes after it.
// Each arm is an opcode, its operands and the rest; the numbers are those of commands/specs/Encoded.antt.
pub fn take_command(bytes: &[u8]) -> Option<(Command, &[u8])>
    ensures { split result ≡ taken bytes.now }
{
    match bytes {
        [0x10, 0, rest @ ..] => Some((Command::Value(Atom::Kind(Kind::Root)), rest)),
        [0x10, 1, rest @ ..] => Some((Command::Value(Atom::Kind(Kind::Text)), rest)),
        [0x10, 2, rest @ ..] => Some((Command::Value(Atom::Kind(Kind::Element)), rest)),
        [0x11, high, low, rest @ ..] => {
            let label = u16::from_be_bytes([*high, *low]);
            Some((Command::Value(Atom::Label(label)), rest))
        }
        [0x12, rest @ ..] => Some((Command::Value(Atom::True), rest)),
        [0x13, p, rest @ ..] => Some((Command::Value(Atom::First(*p)), rest)),
        [0x14, p, rest @ ..] => Some((Command::Value(Atom::Next(*p)), rest)),
        [0x15, p, rest @ ..] => Some((Command::Value(Atom::Here(*p)), rest)),
        [0x18, rest @ ..] => Some((Command::And, rest)),
        [0x19, rest @ ..] => Some((Command::Or, rest)),
        [0x1a, rest @ ..] => Some((Command::Not, rest)),
        [0x1f, rest @ ..] => Some((Command::Define, rest)),
        [0x20, p, rest @ ..] => Some((Command::When(*p), rest)),
        [0x21, q, rest @ ..] => Some((Command::Make(Move::Down(*q)), rest)),
        [0x22, q, rest @ ..] => Some((Command::Make(Move::On(*q)), rest)),
        [0x23, q, rest @ ..] => Some((Command::Make(Move::Stay(*q)), rest)),
        [0x24, rest @ ..] => Some((Command::Make(Move::Mark), rest)),
        [0x2f, rest @ ..] => Some((Command::Done, rest)),
        [0xff, rest @ ..] => Some((Command::End, rest)),
        _ => None,
    }
}

// The commands, one after another, to where the bytes that are left begin with none.
#[derive(Clone, Copy, Debug, Drop)]
pub struct Commands<'a> {
    bytes: &'a [u8],
}

impl<'a> Commands<'a> {
    ghost use Rattle.commands.specs.Decoded.{widths};
    ghost use Rattle.program.specs.Commands.{left};

    pub fn new(bytes: &'a [u8]) -> Commands<'a>
        ensures bytes { result.bytes.now ≡ bytes.now }
        ensures all { left result ≡ commands_of bytes.now }
        ensures few { length (left result) ≤ length bytes.now }
        ensures short { widths (left result) ≤ length bytes.now }
    {
        Commands { bytes }
    }
}

impl<'a> Iterator for Commands<'a> {
    ghost use Rattle.std.specs.Iterator.{YieldsFirst, item_count};
    ghost use Rattle.program.specs.Commands.{left};

    type Item = Command;

    ghost next_gives = { YieldsFirst left };

    ghost remaining = { item_count left };

    #[inline]
    fn next(&mut self) -> Option<Command> {
        let (command, rest) = take_command(self.bytes)?;
        self.bytes = rest;
        Some(command)
    }
}
