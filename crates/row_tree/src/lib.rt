// The row tree: a table with one row a node, which answers every question in constant time.
#![tactic(auto)]

ghost use Rattle.std.specs.Prelude.{◌≡◌, Ok, Err};
ghost use Rattle.rows.specs.Rows.{lone};
ghost use Rattle.rows.proofs.Laws.{to_lawful};
ghost use Rattle.stored.specs.Stored.{rows_of};
ghost use Rattle.stored.specs.Claims.{TreesKnown};
ghost use Rattle.row_tree.specs.Loading.{Loads};

mod check;
mod parents;
pub mod row_tree;
pub mod write;

use check::of_tree;
use row_tree::RowTree;
use stored::lone_row;
use stored::row::StoredRow;
use tree::fault::Fault;
use tree::{NO_LABEL, Tree};

const LONE: [StoredRow; 1] = [StoredRow {
    label: 0,
    distance: 0,
    size: 1,
}];

impl<'a> RowTree<'a> {
    // A root alone: where a tree is loaded to.
    pub fn lone() -> RowTree<'a>
        ensures { rows_of result.rows.now ≡ lone }
    {
        RowTree { rows: &LONE }
    }

    // The tree of stored rows, where they are those of a tree. It is put into a tree at hand, since callers are promised that a
    // refusal leaves the one that was there.
    pub fn load(&mut self, rows: &'a [StoredRow]) -> Result<(), Fault>
        ensures answers { Loads rows.now result }
        ensures leaves { elim result [ Ok _ ↦ self.new.rows.now ≡ rows.now | Err _ ↦ self.new ≡ self.old ] }
        ensures known { TreesKnown }
    {
        let _ = lone_row();
        if !of_tree(rows) {
            return Err(Fault::NoTree);
        }
        *self = RowTree { rows };
        Ok(())
    }
}

impl Tree for RowTree<'_> {
    ghost rows = { λ t. rows_of t.rows.now };

    ghost lawful = { λ t. to_lawful (rows_of t.rows.now) t.law };

    fn count(&self) -> usize {
        self.rows.len()
    }

    fn label(&self, v: usize) -> u16 {
        self.rows.get(v).map_or(NO_LABEL, |row| row.label)
    }

    fn first_child(&self, v: usize) -> Option<usize> {
        let row = self.rows.get(v)?;
        (row.size > 1).then_some(v + 1)
    }

    // The row after v's subtree, if it has the same parent.
    fn next_sibling(&self, v: usize) -> Option<usize> {
        let row = self.rows.get(v)?;
        let w = v + row.size as usize;
        let next = self.rows.get(w)?;
        (next.distance as usize == w - v + row.distance as usize).then_some(w)
    }

    fn size(&self, v: usize) -> usize {
        self.rows.get(v).map_or(0, |row| row.size as usize)
    }
}
