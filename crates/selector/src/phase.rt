// How far a selector has come.
#[derive(Clone, Copy, Debug, PartialEq, Eq)]
pub enum Phase {
    // no program is loaded
    Empty,
    // the nodes before `left` are still to be risen over
    Rising { left: usize },
    // the nodes from `next` on are still to be fallen over
    Falling { next: usize },
    Settled,
}
