// The two states of a feed: plain numbers, with the memory passed at each call. Neither is let go by itself.
ghost use Rattle.std.specs.Prelude.{◌≡◌, ◌+◌, ◌*◌, ◌≤◌};

// A feed that takes commands.
pub struct Growing {
    pub(crate) nodes: usize,
    // parentheses written
    pub(crate) written: usize,
    // nodes that are open, the root too
    pub(crate) due: usize,
    // names in the name store
    pub(crate) names: usize,
    ghost few: { nodes ≤ 8192 },
    ghost rooted: { 1 ≤ due },
    ghost paired: { written + due ≡ 2 * nodes },
    ghost named: { names ≤ 512 },
}

// A feed that is complete.
pub struct Sealed {
    pub(crate) nodes: usize,
    // names in the name store
    pub(crate) names: usize,
    ghost few: { nodes ≤ 8192 },
}
