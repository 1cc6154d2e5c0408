// A program that is written from its end on.
ghost use Rattle.std.specs.Prelude.{◌≡◌, ◌+◌, ◌≤◌, [], ◌∷◌, ◌++◌, length, reverse, take, drop};
ghost use Rattle.commands.specs.Decoded.{atom_width, move_width, width};
ghost use Rattle.commands.specs.Encoded.{atom_bytes, move_bytes, command_bytes};
ghost use Rattle.translation.specs.Written.{nots};

use commands::command::{Atom, Command, Move};

// The front of `out` holds the bytes so far in reverse, `at` of them: what is put stands before them. The buffer is lent, and
// turned round as a whole at last, so the number stands beside it.
pub(crate) struct Writer<'a> {
    out: &'a mut [u8],
    at: usize,
}

// Each call asks for the room that it needs itself, so the demands differ by call and are no field of the writer.
impl<'a> Writer<'a> {
    ghost use Rattle.translate.specs.Writing.{HasRoom, Puts};

    pub(crate) fn new(out: &'a mut [u8]) -> Writer<'a>
        ensures same { result.out.ghost_name ≡ out.entry.ghost_name }
        ensures out { result.out.now ≡ out.old }
        ensures at { result.at ≡ 0 }
    {
        Writer { out, at: 0 }
    }

    fn put_byte(&mut self, byte: u8)
        requires { HasRoom self.old 1 }
        ensures { Puts self.old self.new (byte ∷ []) }
    {
        self.out[self.at] = byte;
        self.at += 1;
    }

    fn put_operand(&mut self, opcode: u8, operand: u8)
        requires { HasRoom self.old 2 }
        ensures { Puts self.old self.new (opcode ∷ operand ∷ []) }
    {
        self.put_byte(operand);
        self.put_byte(opcode);
    }

    fn put_label(&mut self, label: u16)
        requires { HasRoom self.old 3 }
        ensures { Puts self.old self.new (atom_bytes (Atom.Label label)) }
    {
        let [high, low] = label.to_be_bytes();
        self.put_byte(low);
        self.put_operand(0x11, high);
    }

    // The opcodes, here and below, are those of commands/specs/Encoded.antt.
    fn put_atom(&mut self, atom: Atom)
        requires { HasRoom self.old (atom_width atom) }
        ensures { Puts self.old self.new (atom_bytes atom) }
    {
        match atom {
            Atom::Kind(kind) => self.put_operand(0x10, kind as u8),
            Atom::Label(label) => self.put_label(label),
            Atom::True => self.put_byte(0x12),
            Atom::First(state) => self.put_operand(0x13, state),
            Atom::Next(state) => self.put_operand(0x14, state),
            Atom::Here(state) => self.put_operand(0x15, state),
        }
    }

    fn put_move(&mut self, step: Move)
        requires { HasRoom self.old (move_width step) }
        ensures { Puts self.old self.new (move_bytes step) }
    {
        match step {
            Move::Down(state) => self.put_operand(0x21, state),
            Move::On(state) => self.put_operand(0x22, state),
            Move::Stay(state) => self.put_operand(0x23, state),
            Move::Mark => self.put_byte(0x24),
        }
    }

    pub(crate) fn put(&mut self, command: Command)
        requires { HasRoom self.old (width command) }
        ensures { Puts self.old self.new (command_bytes command) }
    {
        match command {
            Command::Value(atom) => self.put_atom(atom),
            Command::And => self.put_byte(0x18),
            Command::Or => self.put_byte(0x19),
            Command::Not => self.put_byte(0x1a),
            Command::Define => self.put_byte(0x1f),
            Command::When(state) => self.put_operand(0x20, state),
            Command::Make(step) => self.put_move(step),
            Command::Done => self.put_byte(0x2f),
            Command::End => self.put_byte(0xff),
        }
    }

    // NOT, n times.
    pub(crate) fn put_nots(&mut self, n: u8)
        requires { HasRoom self.old n }
        ensures { Puts self.old self.new (nots n) }
    {
        for _i in 0..n {
            self.put(Command::Not);
        }
    }

    // Turns the bytes round, and gives how many they are.
    pub(crate) fn finish(self) -> usize
        requires { self.at ≤ length self.out.now }
        ensures count { result ≡ self.entry.at }
        ensures turned { self.exit.0.now ≡ reverse (take self.entry.at self.entry.out.now) ++ drop self.entry.at self.entry.out.now }
    {
        let Writer { out, at } = self;
        out[..at].reverse();
        at
    }
}
