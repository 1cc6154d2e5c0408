// Sweeps of a program over the nodes of a tree, with one word a node: what rises and falls leave in the words.
#![tactic(auto)]

ghost use Rattle.std.specs.Prelude.{◌≡◌};
ghost use Rattle.sweep.specs.Claims.{RisesRight, FallsRight, MarksRight};

pub mod place;
pub mod sending;

// The bit of a word from which on it has the sending states that enter its node; below are the deciding states that
// hold there. Its contract also has what is proved of the words that rises and falls leave.
pub fn first_sending_bit() -> usize
    ensures exact { result ≡ 40 }
    ensures rises { RisesRight }
    ensures falls { FallsRight }
    ensures marks { MarksRight }
{
    laws_stand();
    40
}

// Holds the laws of sweeps.
fn laws_stand()
    ensures rises { RisesRight }
    ensures falls { FallsRight }
    ensures marks { MarksRight }
{}
