// One node of a stored tree.
#[derive(Clone, Copy, Debug, PartialEq, Eq)]
pub struct StoredRow {
    pub label: u16,
    // how far back its parent's number is; 0 at the root, which alone has none: a row is three 16-bit numbers in memory that
    // a caller lends
    pub distance: u16,
    // the nodes of its subtree, itself included
    pub size: u16,
}
