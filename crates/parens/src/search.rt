// Searches over parentheses: whole bytes by the tables of excess, and what is left bit by bit. Each part breaks off at the
// place that is sought, or goes on with the count or the excess at its end. A stretch is named by its two places, in bits or in
// bytes of one buffer: a struct would have to be made anew for each part.
ghost use Rattle.std.specs.Prelude.{◌≡◌, ◌+◌, ◌*◌, ◌<◌, ◌≤◌, length};
ghost use Rattle.shape.specs.Bits.{bits_of, openings_of};
ghost use Rattle.parens.specs.Search.{Selects, Closes};

use scan::bits::opens;
use std::ops::ControlFlow;

// How many parentheses of a byte open.
pub(crate) fn openings_in(b: u8) -> usize
    ensures { result ≡ openings_of b }
{
    (excess::total(b) + 8) as usize / 2
}

// Looks between two places for the opening that has `left` openings before it.
pub(crate) fn open_in_bits(
    bits: &[u8],
    from: usize,
    to: usize,
    mut left: usize,
) -> ControlFlow<usize, usize>
    requires order { from ≤ to }
    requires within { to ≤ 8 * length bits.now }
    ensures { Selects (bits_of bits.now) from left to result }
{
    // by places: bits are no elements of a slice
    for p in from..to {
        if opens(bits, p) {
            if left == 0 {
                return ControlFlow::Break(p);
            }
            left -= 1;
        }
    }
    ControlFlow::Continue(left)
}

// Looks between two places for the closing that brings the excess below 0.
pub(crate) fn close_in_bits(
    bits: &[u8],
    from: usize,
    to: usize,
    mut excess: usize,
) -> ControlFlow<usize, usize>
    requires order { from ≤ to }
    requires within { to ≤ 8 * length bits.now }
    requires low { excess ≤ from }
    ensures { Closes (bits_of bits.now) from excess to result }
{
    // by places: bits are no elements of a slice
    for p in from..to {
        if opens(bits, p) {
            excess += 1;
        } else if excess == 0 {
            return ControlFlow::Break(p);
        } else {
            excess -= 1;
        }
    }
    ControlFlow::Continue(excess)
}

// The same between two bytes; a byte over which the excess stays 0 or more is passed over whole. `few` keeps the excess within
// an i32.
pub(crate) fn close_in_bytes(
    bits: &[u8],
    from: usize,
    to: usize,
    mut excess: usize,
) -> ControlFlow<usize, usize>
    requires order { from ≤ to }
    requires within { to ≤ length bits.now }
    requires few { length bits.now ≤ 2048 }
    requires low { excess ≤ 8 * from }
    ensures { Closes (bits_of bits.now) (8 * from) excess (8 * to) result }
{
    for (i, byte) in bits[from..to].iter().enumerate() {
        let here = excess as i32;
        if here + (excess::least(*byte) as i32) < 0 {
            let at = 8 * (from + i);
            excess = close_in_bits(bits, at, at + 8, excess)?;
        } else {
            excess = (here + (excess::total(*byte) as i32)) as usize;
        }
    }
    ControlFlow::Continue(excess)
}
