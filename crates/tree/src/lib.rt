// A labelled tree: its rows and the five questions that every kind of tree answers.
#![tactic(auto)]

ghost use Rattle.std.specs.Prelude.{◌≡◌, List};
ghost use Rattle.rows.specs.Rows.{Row, Lawful, count_of, label_of};
ghost use Rattle.rows.specs.Answers.{first_of, next_of, size_of};
ghost use Rattle.tree.specs.Faults.{code_of};

pub mod fault;

use fault::Fault;

// The label that is answered for a number that is no node (names, which knows no trees, has its own). Label and size are
// plain numbers: who asks for nodes alone, as sweeps do at each, has no Option to take apart.
pub const NO_LABEL: u16 = 0xffff;

// Node numbers are counted from 0 in document order. For a number that is no node the last four questions answer NO_LABEL, none, none and 0.
pub trait Tree {
    // one row a node, in document order
    ghost rows: { Self → List Row };

    // what each kind of tree has to show: its rows are those of a tree
    ghost lawful: { (t : Self) → Lawful (rows t) };

    // The number of nodes.
    fn count(&self) -> usize
        ensures { result ≡ count_of (rows self.now) };

    // The label of node v: 0 at the root, 1 at a text, from 2 on a name's, as the bytes of feeds and programs have it.
    fn label(&self, v: usize) -> u16
        ensures { result ≡ label_of (rows self.now) v };

    // The first child of node v.
    fn first_child(&self, v: usize) -> Option<usize>
        ensures { result ≡ first_of (rows self.now) v };

    // The next sibling of node v.
    fn next_sibling(&self, v: usize) -> Option<usize>
        ensures { result ≡ next_of (rows self.now) v };

    // The number of nodes in the subtree of node v, itself included.
    fn size(&self, v: usize) -> usize
        ensures { result ≡ size_of (rows self.now) v };
}

impl Fault {
    // The number by which a refusal is known.
    pub fn code(self) -> u8
        ensures { result ≡ code_of self }
    {
        self as u8
    }
}
