// The sending states that enter a node, its first child and its next sibling by the moves made at the node, each set as
// bits of a word.
#[derive(Clone, Copy, Debug, PartialEq, Eq)]
pub struct Sending {
    pub here: u64,
    pub down: u64,
    pub on: u64,
}
