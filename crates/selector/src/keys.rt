ghost use Rattle.std.specs.Prelude.{◌≡◌};
ghost use Rattle.selector.specs.Keys.{place_of};

use crate::seen::Seen;
use memo::{Key, spread};

impl Key for Seen {
    ghost place = { place_of };

    fn place(self) -> usize {
        let Seen(node) = self;
        let first = node.first.wrapping_mul(0xc2b2_ae3d_27d4_eb4f);
        let next = node.next.wrapping_mul(0x1656_67b1_9e37_79f9);
        spread(node.label as u64 ^ first ^ next)
    }

    fn same(self, other: Seen) -> bool {
        self == other
    }
}
