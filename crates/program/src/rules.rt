// Where the sending states begin.
ghost use Rattle.std.specs.Prelude.{◌≡◌, ◌≤◌, length, drop};
ghost use Rattle.commands.specs.Begin.{rules_at};
ghost use Rattle.commands.specs.Commands.{commands_of};
ghost use Rattle.commands.specs.Rules.{deciding, after_deciding};

use crate::decode::Commands;
use commands::command::Command;

fn is_deciding(command: Command) -> bool
    ensures { result ≡ deciding command }
{
    matches!(
        command,
        Command::Value(_) | Command::And | Command::Or | Command::Not | Command::Define
    )
}

// The bytes of the sending states: what follows the deciding states.
pub(crate) fn rules_of(program: &[u8]) -> &[u8]
    ensures { commands_of result.now ≡ after_deciding (commands_of program.now) }
{
    &program[rules_start(program)..]
}

// Where those bytes begin.
pub fn rules_start(program: &[u8]) -> usize
    ensures inside { result ≤ length program.now }
    ensures exact { result ≡ rules_at program.now }
    ensures begins { commands_of (drop result program.now) ≡ after_deciding (commands_of program.now) }
{
    Commands::new(program)
        .take_while(|command| is_deciding(*command))
        .map(|command| command.width())
        .sum()
}
