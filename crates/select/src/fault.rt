// Why a selection is refused.
#[derive(Clone, Copy, Debug, PartialEq, Eq)]
pub enum Fault {
    // the program's buffer has fewer than 2,048 bytes
    Memory = 11,
    // the work area has fewer words than the tree has nodes
    SmallWork = 19,
    // the span does not lie in the tree
    NoSpan = 21,
}
