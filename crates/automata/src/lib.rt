// Programs, and what they mean over the rows of a tree: which deciding states hold where, which sending states enter
// where, and which nodes are marked.
#![tactic(auto)]

ghost use Rattle.std.specs.Prelude.{◌≤◌};
ghost use Rattle.automata.specs.Program.{Program, Proper, bytes};
ghost use Rattle.automata.specs.Claims.{Settled, Agreeing, Rising, Falling};

// The most bytes that a program has. Its contract also has what is proved of programs: the formulas settle which states
// hold where, and with that which states enter where and which nodes are marked; one sweep from the last node down finds
// out which states hold, and one from the first up meets each state after all that enters it.
pub fn most_bytes() -> usize
    ensures most { (P : Program) → Proper P → bytes P ≤ result }
    ensures settled { Settled }
    ensures agreeing { Agreeing }
    ensures rising { Rising }
    ensures falling { Falling }
{
    laws_stand();
    2048
}

// Holds the laws of programs.
fn laws_stand()
    ensures settled { Settled }
    ensures agreeing { Agreeing }
    ensures rising { Rising }
    ensures falling { Falling }
{}
