// The first command of a feed file's bytes, and the bytes after it.
ghost use Rattle.std.specs.Prelude.{◌≡◌};
ghost use Rattle.feedfile.specs.Bytes.{taken, split, slot, with_rest};

use crate::command::FileCommand;
use crate::opcode::{NAME, OPEN, SEAL, SHUT, TEXT};
use growth::command::Command;

// NAME by its operand.
fn take_slot(bytes: &[u8]) -> Option<(FileCommand, &[u8])>
    ensures { split result ≡ with_rest bytes.now (slot bytes.now) }
{
    let (slot, rest) = bytes.split_first_chunk::<32>()?;
    Some((FileCommand::Feed(Command::Name(*slot)), rest))
}

// The first command and the bytes after it; none where it is unknown, cut short or missing. Each arm is an opcode, its
// operands and the rest.
pub(crate) fn take_command(bytes: &[u8]) -> Option<(FileCommand, &[u8])>
    ensures { split result ≡ taken bytes.now }
{
    match bytes {
        [OPEN, high, low, rest @ ..] => {
            let label = u16::from_be_bytes([*high, *low]);
            Some((FileCommand::Feed(Command::Open(label)), rest))
        }
        [SHUT, rest @ ..] => Some((FileCommand::Feed(Command::Shut), rest)),
        [TEXT, rest @ ..] => Some((FileCommand::Feed(Command::Text), rest)),
        [NAME, rest @ ..] => take_slot(rest),
        [SEAL, rest @ ..] => Some((FileCommand::Seal, rest)),
        _ => None,
    }
}
