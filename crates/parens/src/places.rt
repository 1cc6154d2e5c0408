// The places of a node's two parentheses.
ghost use Rattle.std.specs.Prelude.{◌≡◌, ◌+◌, ◌-◌, ◌/◌, ◌≤◌};

#[derive(Clone, Copy, Debug, PartialEq, Eq)]
pub struct Places {
    pub opening: usize,
    pub closing: usize,
}

impl Places {
    // The nodes of the node's subtree: half of the parentheses from its opening to its closing.
    pub(crate) fn nodes(self) -> usize
        requires { self.opening ≤ self.closing }
        ensures { result ≡ (self.closing - self.opening + 1) / 2 }
    {
        (self.closing - self.opening).div_ceil(2)
    }
}
