// The first twelve nodes, and whether more follow.
ghost use Rattle.std.specs.Prelude.{◌≡◌, ◌≤◌, false, [], ◌∷◌};
ghost use Rattle.tally.specs.Values.{Leading, leading, followed, followed_assoc, followed_left, followed_right};

use crate::Tally;

const MOST: usize = 12;

// An array with a length, since answers are copied and an ArrayVec is not.
#[derive(Clone, Copy)]
pub struct LeadingTwelve {
    nodes: [u16; MOST],
    len: usize,
    more: bool,
    ghost ok: { len ≤ 12 },
}

impl LeadingTwelve {
    ghost use Rattle.tally.specs.Reaches.{leading_of};

    // The nodes, at most twelve.
    pub fn nodes(&self) -> &[u16]
        ensures { result.now ≡ (leading_of self.now).numbers }
    {
        &self.nodes[..self.len]
    }

    // Whether more nodes follow.
    pub fn more(&self) -> bool
        ensures { result ≡ (leading_of self.now).more }
    {
        self.more
    }
}

impl Tally for LeadingTwelve {
    ghost use Rattle.tally.specs.Reaches.{leading_of};

    ghost Value = { Leading };

    ghost value = { leading_of };

    ghost empty = { leading [] false };

    ghost mark = { λ v. leading (v ∷ []) false };

    ghost join = { followed };

    const WIDTH: usize = 72;

    ghost assoc = { followed_assoc };

    ghost left = { followed_left };

    ghost right = { followed_right };

    fn none() -> LeadingTwelve {
        LeadingTwelve {
            nodes: [0; MOST],
            len: 0,
            more: false,
        }
    }

    fn marked(node: u16) -> LeadingTwelve {
        let mut nodes = [0; MOST];
        nodes[0] = node;
        LeadingTwelve {
            nodes,
            len: 1,
            more: false,
        }
    }

    fn joined(self, other: LeadingTwelve) -> LeadingTwelve {
        let mut nodes = self.nodes;
        let taken = other.len.min(MOST - self.len);
        let len = self.len + taken;
        nodes[self.len..len].copy_from_slice(&other.nodes[..taken]);
        LeadingTwelve {
            nodes,
            len,
            more: self.more | other.more | (taken < other.len),
        }
    }
}
