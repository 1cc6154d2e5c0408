// How long the buffers of a tree are, and the laws of loading them.
ghost use Rattle.std.specs.Prelude.{◌≡◌, ◌*◌};
ghost use Rattle.scan.specs.Directory.{blocks, bytes};
ghost use Rattle.parens.specs.Loading.{HeldLoads, LoadedHeld, TreesHeld};

use scan::directory::{blocks_for, bytes_for};

// The bytes of parentheses, the labels and the rows of the directory.
#[derive(Clone, Copy, Debug, PartialEq, Eq)]
pub struct Lengths {
    pub bytes: usize,
    pub labels: usize,
    pub blocks: usize,
}

// The least lengths of the buffers of a tree of `count` nodes. The contract also has the laws of loading: buffers that hold
// a tree load and show its rows, buffers that load hold the tree that they show, and every lawful list of rows has buffers.
pub fn lengths_for(count: usize) -> Lengths
    ensures bytes { result.bytes ≡ bytes count }
    ensures labels { result.labels ≡ count }
    ensures blocks { result.blocks ≡ blocks (2 * count) }
    ensures shows { HeldLoads }
    ensures holds { LoadedHeld }
    ensures every { TreesHeld }
{
    laws_stand();
    Lengths {
        bytes: bytes_for(count),
        labels: count,
        blocks: blocks_for(count),
    }
}

// Holds the laws of loading.
fn laws_stand()
    ensures shows { HeldLoads }
    ensures holds { LoadedHeld }
    ensures every { TreesHeld }
{}
