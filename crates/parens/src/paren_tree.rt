// A tree as balanced parentheses over borrowed memory.
ghost use Rattle.std.specs.Prelude.{◌≡◌, ◌+◌, ◌-◌, ◌*◌, ◌/◌, ◌≤◌, [], length};
ghost use Rattle.rows.specs.Lawful.{IsLawful};
ghost use Rattle.shape.specs.Bits.{bits_of};
ghost use Rattle.shape.specs.Shape.{closing, parens_onto};
ghost use Rattle.scan.specs.Directory.{directory_of};
ghost use Rattle.scan.specs.Trees.{rows_of};

use scan::block::Block;

// The buffers are those of a tree of `count` nodes and nothing more: its parentheses, spare bits 0, its labels and its
// directory. The count is that of the labels: it is a field, since contracts of feeds say what a tree's count is.
#[derive(Clone, Copy)]
pub struct ParenTree<'a> {
    pub(crate) bits: &'a [u8],
    pub(crate) labels: &'a [u16],
    pub(crate) directory: &'a [Block],
    pub(crate) count: usize,
    ghost few: { count ≤ 8192 },
    ghost labelled: { length labels.now ≡ count },
    ghost padded: { length bits.now ≡ (count + 3) / 4 },
    ghost law: { IsLawful (rows_of bits.now labels.now) },
    ghost counted: { length (rows_of bits.now labels.now) ≡ count },
    ghost shape: { bits_of bits.now ≡ parens_onto 0 (rows_of bits.now labels.now) (closing (8 * length bits.now - 2 * count) []) },
    ghost blocks: { directory.now ≡ directory_of (bits_of bits.now) (2 * count) },
}
