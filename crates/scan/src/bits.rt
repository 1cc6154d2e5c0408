// Parentheses as the bits of bytes, high bits first: 1 opens a node, 0 closes it.
ghost use Rattle.std.specs.Prelude.{◌≡◌, false, slice_index_or};
ghost use Rattle.shape.specs.Bits.{bits_of};

// Whether the parenthesis at the place p opens a node; none does past the end.
pub fn opens(bits: &[u8], p: usize) -> bool
    ensures { result ≡ slice_index_or (bits_of bits.now) p false }
{
    bits.get(p / 8)
        .is_some_and(|byte| (*byte >> (7 - p % 8)) % 2 == 1)
}
