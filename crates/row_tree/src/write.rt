// Writing any tree as stored rows.
ghost use Rattle.std.specs.Prelude.{◌≡◌, ℕ, ◌<◌, ◌≤◌, length};
ghost use Rattle.rows.specs.Rows.{count_of};
ghost use Rattle.stored.specs.Stored.{at, stored_at};
ghost use Rattle.row_tree.specs.Writing.{write_answer, written, Reloads};

use crate::parents::parent;
use stored::row::StoredRow;
use tree::Tree;
use tree::fault::Fault;

// Writes a tree's stored rows to the front of a buffer: the number of its nodes, or a refusal that changes nothing.
pub fn write_rows<T: Tree>(tree: &T, out: &mut [StoredRow]) -> Result<usize, Fault>
    ensures answers { result ≡ write_answer (T.rows tree.now) out.old }
    ensures leaves { out.new ≡ written (T.rows tree.now) out.old }
    ensures reloads { Reloads (T.rows tree.now) out.new result }
{
    let n = tree.count();
    if out.len() < n {
        return Err(Fault::Memory);
    }
    // by number: a row is written from the rows before it
    for v in 0..n {
        let row = row_of(tree, out, v);
        out[v] = row;
    }
    Ok(n)
}

// The stored row of node v, where those before it have been written.
fn row_of<T: Tree>(tree: &T, out: &[StoredRow], v: usize) -> StoredRow
    requires within { v < count_of (T.rows tree.now) }
    requires room { v ≤ length out.now }
    requires known { (j : ℕ) → j < v → at out.now j ≡ stored_at (T.rows tree.now) j }
    ensures { result ≡ stored_at (T.rows tree.now) v }
{
    let distance = if v == 0 { 0 } else { v - parent(out, v) };
    StoredRow {
        label: tree.label(v),
        distance: distance as u16,
        size: tree.size(v) as u16,
    }
}
