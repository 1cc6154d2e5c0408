// Which row is the parent of the next one.
ghost use Rattle.std.specs.Prelude.{◌≡◌, ℕ, ◌+◌, ◌<◌, ◌≤◌, length};
ghost use Rattle.stored.specs.Stored.{at};
ghost use Rattle.stored.specs.Fits.{Ended, Fits};

use stored::row::StoredRow;

// The last row before v whose subtree goes on at v, where the rows before v fit to each other. A row is a number beside the
// rows, since what is asked of it is asked of the rows before it.
pub(crate) fn parent(rows: &[StoredRow], v: usize) -> usize
    requires after { 0 < v }
    requires within { v ≤ length rows.now }
    requires root { v < (at rows.now 0).size }
    requires earlier { (j : ℕ) → 0 < j → j < v → Fits rows.now j }
    ensures before { result < v }
    ensures goes_on { v < result + (at rows.now result).size }
    ensures ended { Ended rows.now result v }
{
    // from row to row by distances: no iterator of a slice goes so
    let mut q = v - 1;
    while end_of(rows, q) <= v {
        q -= rows[q].distance as usize;
    }
    q
}

// The number after the last of v's subtree.
pub(crate) fn end_of(rows: &[StoredRow], v: usize) -> usize
    requires { v < length rows.now }
    ensures { result ≡ v + (at rows.now v).size }
{
    v + rows[v].size as usize
}
