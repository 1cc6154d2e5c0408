// An excerpt: the subtree of a node of any tree, as a tree of its own.
#![tactic(auto)]

ghost use Rattle.std.specs.Prelude.{◌≡◌, ◌<◌, ◌≤◌, Ok, Err};
ghost use Rattle.rows.specs.Rows.{count_of};
ghost use Rattle.rows.specs.Excerpts.{excerpt_of};
ghost use Rattle.rows.proofs.Excerpts.{excerpt_lawful};
ghost use Rattle.tree.specs.declared.fault.Fault.TheVariants.{NoNode};

use tree::fault::Fault;
use tree::{NO_LABEL, Tree};

// Numbered from 0, with label 0 at its root.
#[derive(Drop)]
pub struct Excerpt<'a, T: Tree> {
    tree: &'a T,
    node: usize,
    ghost inside: { node < count_of (T.Tree.rows tree.now) },
}

impl<'a, T: Tree> Excerpt<'a, T> {
    // The excerpt at a node; refused where the number is no node.
    pub fn new(tree: &'a T, node: usize) -> Result<Excerpt<'a, T>, Fault>
        ensures { elim result [ Ok x ↦ (node < count_of (T.Tree.rows tree.now)) × (x.tree.now ≡ tree.now) × (x.node ≡ node) | Err e ↦ (count_of (T.Tree.rows tree.now) ≤ node) × (e ≡ NoNode) ] }
    {
        if node < tree.count() {
            Ok(Excerpt { tree, node })
        } else {
            Err(Fault::NoNode)
        }
    }
}

impl<'a, T: Tree> Tree for Excerpt<'a, T> {
    ghost rows = { λ x. excerpt_of (T.Tree.rows x.tree.now) x.node };

    ghost lawful = { λ x. excerpt_lawful (T.Tree.rows x.tree.now) x.node (T.Tree.lawful x.tree.now) };

    fn count(&self) -> usize {
        self.tree.size(self.node)
    }

    fn label(&self, v: usize) -> u16 {
        if v == 0 {
            0
        } else if v < self.count() {
            self.tree.label(self.node + v)
        } else {
            NO_LABEL
        }
    }

    fn first_child(&self, v: usize) -> Option<usize> {
        if v >= self.count() {
            return None;
        }
        let w = self.tree.first_child(self.node + v)?;
        Some(w - self.node)
    }

    // likewise, but for the root, which has none
    fn next_sibling(&self, v: usize) -> Option<usize> {
        if v == 0 || v >= self.count() {
            return None;
        }
        let w = self.tree.next_sibling(self.node + v)?;
        Some(w - self.node)
    }

    // the root's is the count, which is not asked twice
    fn size(&self, v: usize) -> usize {
        let count = self.count();
        if v == 0 {
            count
        } else if v < count {
            self.tree.size(self.node + v)
        } else {
            0
        }
    }
}
