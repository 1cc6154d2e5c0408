// Which nodes are marked after the sweeps, however rises and falls share out the nodes, and whatever the words held first.
#![tactic(auto)]

ghost use Rattle.std.specs.Prelude.{◌≡◌, ◌&&◌, nat_le};
ghost use Rattle.tallying.specs.Bits.{RiseBits, FallBits};
ghost use Rattle.tallying.specs.Stages.{StagesStand, WordsSettle};

// Whether the span from lo to hi minus 1 lies in a tree of so many nodes. A span is two numbers,
// as callers give it: one that does not lie in the tree is refused, so no type holds it. The contract also has what is proved of
// sweeps as a whole.
pub fn lies_in(lo: usize, hi: usize, count: usize) -> bool
    ensures exact { result ≡ (nat_le lo hi && nat_le hi count) }
    ensures stages { StagesStand }
    ensures settled { WordsSettle }
    ensures rises { RiseBits }
    ensures falls { FallBits }
{
    laws_stand();
    lo <= hi && hi <= count
}

// Holds the laws of sweeps as a whole.
fn laws_stand()
    ensures stages { StagesStand }
    ensures settled { WordsSettle }
    ensures rises { RiseBits }
    ensures falls { FallBits }
{}
