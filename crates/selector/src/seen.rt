// A node as far as the formulas of a program see it: what its word is kept under while a rise goes on.
use commands::node::Node;

#[derive(Clone, Copy, Debug, PartialEq, Eq)]
pub struct Seen(pub Node);
