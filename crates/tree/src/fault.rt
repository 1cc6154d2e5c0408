// Why a tree is refused.

#[derive(Clone, Copy, Debug, PartialEq, Eq)]
pub enum Fault {
    // memory is too small
    Memory = 11,
    // bits, labels, directory or rows are of no tree
    NoTree = 14,
    // an excerpt's node is not in the tree
    NoNode = 15,
}
