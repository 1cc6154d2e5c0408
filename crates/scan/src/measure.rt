// The excess over a stretch of parentheses.
ghost use Rattle.std.specs.Prelude.{◌≡◌, ◌+◌, ◌*◌, ◌%◌, ◌<◌, ◌≤◌, length, pos};
ghost use Rattle.excess.specs.Excess.{total_bits, least_bits};
ghost use Rattle.shape.specs.Bits.{bits_of, openings};
ghost use Rattle.shape.specs.Stretch.{stretch, low};

use crate::bits::opens;

// The excess after a stretch, and the least after any of its parentheses.
#[derive(Clone, Copy)]
pub(crate) struct Levels {
    pub(crate) last: i32,
    pub(crate) least: i32,
}

// Over whole bytes, by the tables. The least begins at 1, which no first parenthesis passes. `few` keeps the excess within an
// i32: bytes are counted before a tree is known that would bound them.
pub(crate) fn measure_bytes(bytes: &[u8]) -> Levels
    requires { length bytes.now ≤ 2048 }
    ensures risen { result.last ≡ total_bits (bits_of bytes.now) }
    ensures lowest { result.least ≡ low (pos 0) (pos 1) (bits_of bytes.now) }
{
    let mut excess: i32 = 0;
    let mut least: i32 = 1;
    for b in bytes {
        least = least.min(excess + (excess::least(*b) as i32));
        excess += excess::total(*b) as i32;
    }
    Levels {
        last: excess,
        least,
    }
}

// The openings of a stretch, and its least excess.
#[derive(Clone, Copy)]
pub(crate) struct Summary {
    pub(crate) openings: usize,
    pub(crate) least: i32,
}

// Between two places, the first of them where a byte begins.
pub(crate) fn measure(bits: &[u8], from: usize, to: usize) -> Summary
    requires aligned { from % 8 ≡ 0 }
    requires order { from < to }
    requires within { to ≤ 8 * length bits.now }
    requires few { length bits.now ≤ 2048 }
    ensures opened { result.openings ≡ openings (stretch (bits_of bits.now) from to) }
    ensures lowest { result.least ≡ least_bits (stretch (bits_of bits.now) from to) }
{
    let whole = measure_bytes(&bits[from / 8..to / 8]);
    let mut excess = whole.last;
    let mut least = whole.least;
    // by places: the bits of a part of a byte are no elements of a slice
    for p in 8 * (to / 8)..to {
        if opens(bits, p) {
            excess += 1;
        } else {
            excess -= 1;
        }
        least = least.min(excess);
    }
    let openings = ((to - from) as i32 + excess) as usize / 2;
    Summary { openings, least }
}
