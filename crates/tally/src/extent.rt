// The first and the last node.
ghost use Rattle.std.specs.Prelude.{refl};
ghost use Rattle.tally.specs.Values.{Extent as Reach, spanned, spanned_assoc, spanned_right};
ghost use Rattle.tally.specs.Values.Extent.{nowhere, across};
ghost use Rattle.tally.specs.Reaches.{reach};

use crate::Tally;

#[derive(Clone, Copy, Debug, PartialEq, Eq)]
pub struct Ends {
    pub first: u16,
    pub last: u16,
}

// None where there are no nodes.
pub type Extent = Option<Ends>;

impl Tally for Extent {
    ghost Value = { Reach };

    ghost value = { reach };

    ghost empty = { nowhere };

    ghost mark = { λ v. across v v };

    ghost join = { spanned };

    const WIDTH: usize = 11;

    ghost assoc = { spanned_assoc };

    ghost left = { λ a. refl };

    ghost right = { spanned_right };

    fn none() -> Extent {
        None
    }

    fn marked(node: u16) -> Extent {
        Some(Ends {
            first: node,
            last: node,
        })
    }

    fn joined(self, other: Extent) -> Extent {
        match (self, other) {
            (Some(Ends { first, .. }), Some(Ends { last, .. })) => Some(Ends { first, last }),
            _ => self.or(other),
        }
    }
}
