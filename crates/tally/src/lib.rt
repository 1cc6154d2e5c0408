// Tallies: what is told of a list of nodes, by joining the marks of the nodes.
#![tactic(auto)]

ghost use Rattle.std.specs.Prelude.{◌≡◌, ℕ};

pub mod count;
pub mod extent;
pub mod leading;

// Two tallies are equal if their values are.
pub trait Tally: Sized {
    // what a tally means
    ghost Value: { Type 0 };

    ghost value: { Self → Value };

    // the value of no nodes
    ghost empty: { Value };

    // the value of one node, by its number
    ghost mark: { ℕ → Value };

    // the value of two lists of nodes, one after the other
    ghost join: { Value → Value → Value };

    // The width of a printed line.
    const WIDTH: usize;

    // The tally of no nodes.
    fn none() -> Self
        ensures { value result ≡ empty };

    // The tally of one node.
    fn marked(node: u16) -> Self
        ensures { value result ≡ mark node };

    // The tally of this one's nodes and then the other's.
    fn joined(self, other: Self) -> Self
        ensures { value result ≡ join (value self) (value other) };

    ghost assoc: { (x y z : Value) → join (join x y) z ≡ join x (join y z) };

    ghost left: { (x : Value) → join empty x ≡ x };

    ghost right: { (x : Value) → join x empty ≡ x };
}
