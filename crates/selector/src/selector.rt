ghost use Rattle.std.specs.Prelude.{◌≡◌, ◌≤◌, take};
ghost use Rattle.commands.specs.Begin.{rules_at};
ghost use Rattle.selector.specs.Sound.{place};

use crate::phase::Phase;

// A selector holds its program in bytes of its own, and knows where the sending states begin. They are an array with a
// length beside it, since the library has no heap. Before a load the phase is Empty and there are no bytes: an Option around the
// program would have to be made and moved in.
#[derive(Drop)]
pub struct Selector {
    pub(crate) program: [u8; 2048],
    pub(crate) len: usize,
    pub(crate) rules: usize,
    pub(crate) count: usize,
    pub(crate) phase: Phase,
    ghost fits: { len ≤ 2048 },
    ghost within: { rules ≤ len },
    ghost begins: { rules ≡ rules_at (take len program) },
    ghost inside: { place phase ≤ count },
}
