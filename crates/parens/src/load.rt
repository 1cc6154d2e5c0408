// Loading a tree from its buffers.
ghost use Rattle.std.specs.Prelude.{◌≡◌, ◌*◌, take, Ok, Err};
ghost use Rattle.rows.specs.Rows.{lone};
ghost use Rattle.scan.specs.Directory.{blocks, bytes};
ghost use Rattle.scan.specs.Trees.{rows_of};
ghost use Rattle.parens.specs.Loading.{Loads};

use crate::paren_tree::ParenTree;
use scan::block::Block;
use scan::check::of_tree;
use scan::directory::{blocks_for, bytes_for};
use tree::fault::Fault;

const LONE_BITS: [u8; 1] = [0b1000_0000];

const LONE_LABELS: [u16; 1] = [0];

const LONE_DIRECTORY: [Block; 1] = [Block {
    before: 0,
    least: 0,
}];

impl<'a> ParenTree<'a> {
    // A root alone.
    pub fn lone() -> ParenTree<'a>
        ensures { rows_of result.bits.now result.labels.now ≡ lone }
    {
        ParenTree {
            bits: &LONE_BITS,
            labels: &LONE_LABELS,
            directory: &LONE_DIRECTORY,
            count: 1,
        }
    }

    // Takes the tree of `count` nodes at the front of the buffers in place of the one that is there; a refusal leaves that one,
    // as callers are promised: so the tree is no part of the answer.
    pub fn load(
        &mut self,
        bits: &'a [u8],
        labels: &'a [u16],
        directory: &'a [Block],
        count: usize,
    ) -> Result<(), Fault>
        ensures answers { Loads bits.now labels.now directory.now count result }
        ensures leaves { elim result [ Ok _ ↦ (self.new.bits.now ≡ take (bytes count) bits.now) × (self.new.labels.now ≡ take count labels.now) × (self.new.directory.now ≡ take (blocks (2 * count)) directory.now) × (self.new.count ≡ count) | Err _ ↦ self.new ≡ self.old ] }
    {
        let bits = bits.get(..bytes_for(count)).ok_or(Fault::Memory)?;
        let labels = labels.get(..count).ok_or(Fault::Memory)?;
        let directory = directory.get(..blocks_for(count)).ok_or(Fault::Memory)?;
        if !of_tree(bits, labels, directory, count) {
            return Err(Fault::NoTree);
        }
        *self = ParenTree {
            bits,
            labels,
            directory,
            count,
        };
        Ok(())
    }
}
