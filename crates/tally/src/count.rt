// The number of nodes, which stops at 65,535.
ghost use Rattle.tally.specs.Values.{Capped, cap, add, add_assoc, add_left, add_right};

use crate::Tally;

#[derive(Clone, Copy, Debug, PartialEq, Eq)]
pub struct Count {
    pub count: u16,
}

impl Tally for Count {
    ghost Value = { Capped };

    ghost value = { λ c. cap c.count };

    ghost empty = { cap 0 };

    ghost mark = { λ _. cap 1 };

    ghost join = { add };

    const WIDTH: usize = 5;

    ghost assoc = { add_assoc };

    ghost left = { add_left };

    ghost right = { add_right };

    fn none() -> Count {
        Count { count: 0 }
    }

    fn marked(_node: u16) -> Count {
        Count { count: 1 }
    }

    fn joined(self, other: Count) -> Count {
        Count {
            count: self.count.saturating_add(other.count),
        }
    }
}
