// The rules for programs.
ghost use Rattle.std.specs.Prelude.{◌≡◌, ◌^◌, ◌<◌, false, not, ◌&&◌, is_ok, Decides};
ghost use Rattle.commands.specs.Commands.{commands_of};
ghost use Rattle.commands.specs.Checked.{defined, closed, surveyed, names as names_defined, opens, formula_step, formulas_keep, goes as GoesTo, is_end, rule_step, rules_keep, few_states, all_keep, accepted, Loadable};
ghost use Rattle.commands.specs.Denotes.{Denotes};
ghost use Rattle.automata.specs.Program.{Program};
ghost use Rattle.program.specs.Faults.{checked, code_of};

use crate::decode::Commands;
use crate::fault::Fault;
use crate::rules::rules_of;
use commands::command::{Atom, Command, Move};
use commands::counts::{Counts, Formulas, Rules};

// Counts the states, where all bytes are commands.
fn survey(program: &[u8]) -> Option<Counts>
    ensures { result ≡ surveyed program.now }
{
    let mut width = 0;
    let mut deciding = 0;
    let mut sending = 0;
    for command in Commands::new(program) {
        width += command.width();
        deciding += usize::from(command == Command::Define);
        sending += usize::from(command == Command::Done);
    }
    (width == program.len()).then_some(Counts { deciding, sending })
}

// whether the atom names a state that it may
fn names(atom: Atom, states: usize, state: usize) -> bool
    ensures { result ≡ names_defined atom states state }
{
    match atom {
        Atom::First(q) | Atom::Next(q) => (q as usize) < states,
        Atom::Here(q) => (q as usize) < state,
        _ => true,
    }
}

// no method of Formulas, which stands in crate commands for the specs there; the rules for programs stand here
fn after_formula(command: Command, states: usize, at: Formulas) -> Option<Formulas>
    requires { at.state < 2 ^ 63 }
    ensures { result ≡ formula_step command states at }
{
    match command {
        Command::Value(atom) if at.depth < 32 && names(atom, states, at.state) => {
            Some(Formulas {
                depth: at.depth + 1,
                ..at
            })
        }
        Command::And | Command::Or if at.depth >= 2 => Some(Formulas {
            depth: at.depth - 1,
            ..at
        }),
        Command::Not if at.depth >= 1 => Some(at),
        Command::Define if at.depth == 1 => Some(Formulas {
            depth: 0,
            state: at.state + 1,
        }),
        _ => None,
    }
}

// whether the commands define so many states and then open a sending state
fn formulas_keep(program: &[u8], states: usize) -> bool
    ensures { result ≡ formulas_keep states (commands_of program.now) (record { depth = 0; state = 0 }) }
{
    let mut at = Formulas { depth: 0, state: 0 };
    for command in Commands::new(program) {
        if matches!(command, Command::When(_) | Command::Done) {
            return at.depth == 0 && at.state == states;
        }
        let Some(next) = after_formula(command, states, at) else {
            return false;
        };
        at = next;
    }
    false
}

// whether the move leads to a state that it may
fn goes(step: Move, states: usize, state: usize) -> bool
    ensures { result ≡ GoesTo step states state }
{
    match step {
        Move::Down(q) | Move::On(q) => (q as usize) < states,
        Move::Stay(q) => state < q as usize && (q as usize) < states,
        Move::Mark => true,
    }
}

// no method of Rules, for the same reason
fn after_rule(command: Command, counts: Counts, at: Rules) -> Option<Rules>
    requires { at.state < 2 ^ 63 }
    ensures { result ≡ rule_step command counts at }
{
    match command {
        Command::When(p) if (p as usize) < counts.deciding => Some(Rules { inside: true, ..at }),
        Command::Make(step) if at.inside && goes(step, counts.sending, at.state) => Some(at),
        Command::Done => Some(Rules {
            state: at.state + 1,
            inside: false,
        }),
        _ => None,
    }
}

// whether the commands are of sending states that keep the rules, and END: beside formulas_keep, with another state, and it
// reads on after END
fn rules_keep(rules: &[u8], counts: Counts) -> bool
    ensures { result ≡ rules_keep counts (commands_of rules.now) (record { state = 0; inside = false }) }
{
    let mut commands = Commands::new(rules);
    let mut at = Rules {
        state: 0,
        inside: false,
    };
    while let Some(command) = commands.next() {
        if command == Command::End {
            return !at.inside && commands.next().is_none();
        }
        let Some(next) = after_rule(command, counts, at) else {
            return false;
        };
        at = next;
    }
    false
}

fn few(counts: Counts) -> bool
    ensures { result ≡ few_states counts }
{
    (1..=40).contains(&counts.deciding) && (1..=24).contains(&counts.sending)
}

fn all_keep(program: &[u8], counts: Counts) -> bool
    ensures { result ≡ all_keep counts (commands_of program.now) }
{
    few(counts) && formulas_keep(program, counts.deciding) && rules_keep(rules_of(program), counts)
}

// whether the bytes are a program that keeps the rules
fn is_program(program: &[u8]) -> bool
    ensures exact { result ≡ accepted program.now }
    ensures means { Decides result (Loadable program.now) }
{
    program.len() <= 2048 && survey(program).is_some_and(|counts| all_keep(program, counts))
}

// Grants exactly the bytes of a program that keeps the rules.
pub fn check(program: &[u8]) -> Result<(), Fault>
    ensures exact { result ≡ checked program.now }
    ensures means { Decides (is_ok result) ((P : Program) × Denotes program.now P) }
{
    if is_program(program) {
        Ok(())
    } else {
        Err(Fault::Broken)
    }
}

impl Fault {
    // The number by which the refusal is known.
    pub fn code(self) -> u8
        ensures { result ≡ code_of self }
    {
        self as u8
    }
}
