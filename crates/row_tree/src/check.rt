// Whether stored rows are those of a tree: one pass, each row against those before it.
ghost use Rattle.std.specs.Prelude.{◌≡◌, ℕ, ◌+◌, ◌<◌, ◌&&◌, length, Decides, ◌==◌};
ghost use Rattle.stored.specs.Stored.{at, OfTree};
ghost use Rattle.stored.specs.Fits.{Fits};

use crate::parents::{end_of, parent};
use stored::row::StoredRow;

pub(crate) fn of_tree(rows: &[StoredRow]) -> bool
    ensures { Decides result (OfTree rows.now) }
{
    let n = rows.len();
    if n == 0 || n > 8192 || !is_root(rows[0], n) {
        return false;
    }
    // a loop: each test may be made only where the rows before it fit, which a closure given to `all` is not told
    for v in 1..n {
        if !fits(rows, v) {
            return false;
        }
    }
    true
}

// Whether a row is the root's of n nodes.
fn is_root(row: StoredRow, n: usize) -> bool
    ensures { result ≡ (row.label == 0 && row.distance == 0 && row.size == n) }
{
    row.label == 0 && row.distance == 0 && row.size as usize == n
}

// Whether row v fits to those before it, which fit.
fn fits(rows: &[StoredRow], v: usize) -> bool
    requires after { 0 < v }
    requires within { v < length rows.now }
    requires root { (at rows.now 0).size ≡ length rows.now }
    requires earlier { (j : ℕ) → 0 < j → j < v → Fits rows.now j }
    ensures { Decides result (Fits rows.now v) }
{
    let row = rows[v];
    if !matches!(row.label, 1..=513) || row.size < 1 {
        return false;
    }
    let p = parent(rows, v);
    if v - p != row.distance as usize {
        return false;
    }
    if rows[p].label == 1 {
        return false;
    }
    end_of(rows, v) <= end_of(rows, p)
}
