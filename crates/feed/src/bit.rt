// Writing parentheses into bytes, high bits first.
ghost use Rattle.std.specs.Prelude.{◌≡◌, ◌*◌, ◌<◌, ◌≤◌, true, false, length, slice_set};
ghost use Rattle.shape.specs.Bits.{bits_of};
ghost use Rattle.growth.specs.Steps.{cleared};

// Sets or clears the bit at the place p, whatever stood there, and no other.
#[tactic(auto, using(crate::proofs::Digits::bit_set, crate::proofs::Digits::bit_clear))]
pub(crate) fn write_bit(bits: &mut [u8], p: usize, opens: bool)
    requires { p < 8 * length bits.old }
    ensures { bits_of bits.new ≡ slice_set (bits_of bits.old) p opens }
{
    let mask = 0x80 >> (p % 8);
    if opens {
        bits[p / 8] |= mask;
    } else {
        bits[p / 8] &= !mask;
    }
}

// Clears the bits between two places.
#[tactic(auto, using(shape::proofs::Bytes::bits_length, crate::proofs::Digits::clear_none, crate::proofs::Digits::clear_more))]
pub(crate) fn clear(bits: &mut [u8], from: usize, to: usize)
    requires order { from ≤ to }
    requires within { to ≤ 8 * length bits.old }
    ensures { bits_of bits.new ≡ cleared (bits_of bits.old) from to }
{
    // by places: bits are no elements of a slice
    for p in from..to {
        write_bit(bits, p, false);
    }
}
