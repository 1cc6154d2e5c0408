// The commands of programs, and the programs that they make up.
#![tactic(auto)]

ghost use Rattle.std.specs.Prelude.{◌≡◌};
ghost use Rattle.commands.specs.Decoded.{width as width_of};
ghost use Rattle.commands.specs.Denotes.{ReadBack, OneProgram, Reading};

pub mod command;
pub mod counts;
pub mod node;

use command::{Atom, Command, Move};

impl Command {
    // How many bytes the command takes. Its contract also has what is proved of the bytes of programs: what is written is
    // read back, bytes are of one program at most, and they are of the program that they are read as.
    pub fn width(self) -> usize
        ensures exact { result ≡ width_of self }
        ensures back { ReadBack }
        ensures one { OneProgram }
        ensures reading { Reading }
    {
        laws_stand();
        match self {
            Command::Value(Atom::Label(_)) => 3,
            Command::Value(Atom::True) | Command::Make(Move::Mark) => 1,
            Command::Value(_) | Command::Make(_) | Command::When(_) => 2,
            _ => 1,
        }
    }
}

// Holds the laws of the bytes of programs.
fn laws_stand()
    ensures back { ReadBack }
    ensures one { OneProgram }
    ensures reading { Reading }
{}
