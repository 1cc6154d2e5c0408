// The excess of a byte of parentheses: openings minus closings.
#![tactic(auto)]

ghost use Rattle.std.specs.Prelude.{◌≡◌};
ghost use Rattle.excess.specs.Excess.{total_of, least_of};

mod tables;

use tables::{LEAST, TOTAL};

// The whole excess of a byte.
pub fn total(b: u8) -> i8
    ensures { result ≡ total_of b }
{
    TOTAL[b as usize]
}

// The least excess over the prefixes of one parenthesis or more of a byte.
pub fn least(b: u8) -> i8
    ensures { result ≡ least_of b }
{
    LEAST[b as usize]
}
