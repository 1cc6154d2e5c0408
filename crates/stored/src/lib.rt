// Stored rows: a tree as a table with one row a node.
#![tactic(auto)]

ghost use Rattle.std.specs.Prelude.{◌≡◌, [], ◌∷◌};
ghost use Rattle.rows.specs.Rows.{lone};
ghost use Rattle.stored.specs.Stored.{stored_of};
ghost use Rattle.stored.specs.Claims.{RowsKept, TreesKnown, PassDecides};

pub mod row;

use row::StoredRow;

// The stored row of a root alone. Its contract also has what is proved of stored rows: which are those of a tree, which
// rows they stand for, and that one pass decides it.
pub fn lone_row() -> StoredRow
    ensures alone { stored_of lone ≡ result ∷ [] }
    ensures kept { RowsKept }
    ensures known { TreesKnown }
    ensures decides { PassDecides }
{
    laws_stand();
    StoredRow {
        label: 0,
        distance: 0,
        size: 1,
    }
}

// Holds the laws of stored rows.
fn laws_stand()
    ensures kept { RowsKept }
    ensures known { TreesKnown }
    ensures decides { PassDecides }
{}
