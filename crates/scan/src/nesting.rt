// The parentheses of a tree, and the directory of them.
ghost use Rattle.std.specs.Prelude.{◌≡◌, ◌+◌, ◌*◌, ◌<◌, ◌≤◌, min, length, take, Decides};
ghost use Rattle.shape.specs.Bits.{bits_of, openings};
ghost use Rattle.scan.specs.Directory.{blocks, bytes, block_at, directory_of};

use crate::block::Block;
use crate::measure::measure;

// The bytes that the parentheses of `count` nodes take.
#[derive(Clone, Copy)]
pub(crate) struct Nesting<'a> {
    pub(crate) bits: &'a [u8],
    pub(crate) count: usize,
    ghost few: { count ≤ 8192 },
    ghost long: { length bits.now ≡ bytes count },
}

impl Nesting<'_> {
    // Writes the directory.
    pub(crate) fn write_directory(&self, directory: &mut [Block])
        requires { length directory.old ≡ blocks (2 * self.now.count) }
        ensures { directory.new ≡ directory_of (bits_of self.now.bits.now) (2 * self.now.count) }
    {
        let mut before = 0;
        for (j, row) in directory.iter_mut().enumerate() {
            *row = self.next_block(j, &mut before);
        }
    }

    // Whether a directory is that of the parentheses.
    pub(crate) fn has_directory(&self, directory: &[Block]) -> bool
        requires { length directory.now ≡ blocks (2 * self.now.count) }
        ensures { Decides result (directory.now ≡ directory_of (bits_of self.now.bits.now) (2 * self.now.count)) }
    {
        let mut before = 0;
        // a loop, as in write_directory: a block is measured from the openings before it, which a closure is not told
        for (j, row) in directory.iter().enumerate() {
            let block = self.next_block(j, &mut before);
            if *row != block {
                return false;
            }
        }
        true
    }

    // Block j, with the openings before it, which then are those before the next: they are changed in place, since both
    // callers go on with them from block to block.
    fn next_block(&self, j: usize, before: &mut usize) -> Block
        requires within { j < blocks (2 * self.now.count) }
        requires counted { before.old ≡ openings (take (256 * j) (bits_of self.now.bits.now)) }
        ensures is { result ≡ block_at (bits_of self.now.bits.now) (2 * self.now.count) j }
        ensures moves { before.new ≡ openings (take (min (2 * self.now.count) (256 * j + 256)) (bits_of self.now.bits.now)) }
    {
        let block = measure(self.bits, 256 * j, (2 * self.count).min(256 * j + 256));
        let here = *before;
        *before += block.openings;
        Block {
            before: here as u16,
            least: block.least as i16,
        }
    }
}
