// The parenthesis tree: a tree as bits, labels and a directory in borrowed memory.
#![tactic(auto)]

ghost use Rattle.rows.proofs.Laws.{to_lawful};
ghost use Rattle.scan.specs.Trees.{rows_of};

pub mod lengths;
mod load;
mod locate;
pub mod paren_tree;
pub mod places;
mod search;

use paren_tree::ParenTree;
use scan::bits::opens;
use tree::{NO_LABEL, Tree};

impl Tree for ParenTree<'_> {
    ghost rows = { λ t. rows_of t.bits.now t.labels.now };

    ghost lawful = { λ t. to_lawful (rows_of t.bits.now t.labels.now) t.law };

    fn count(&self) -> usize {
        self.count
    }

    fn label(&self, v: usize) -> u16 {
        self.labels.get(v).copied().unwrap_or(NO_LABEL)
    }

    // The node, if any, that opens right after the opening of node v.
    fn first_child(&self, v: usize) -> Option<usize> {
        if v >= self.count {
            return None;
        }
        let next = self.opening(v) + 1;
        opens(self.bits, next).then_some(v + 1)
    }

    // The node, if any, that opens right after the closing of node v.
    fn next_sibling(&self, v: usize) -> Option<usize> {
        if v >= self.count {
            return None;
        }
        let at = self.pair(v);
        opens(self.bits, at.closing + 1).then_some(v + at.nodes())
    }

    fn size(&self, v: usize) -> usize {
        if v < self.count {
            self.pair(v).nodes()
        } else {
            0
        }
    }
}
