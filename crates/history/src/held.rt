// A tally of the last kind: a type of its own, since no trait can have an impl for each tally and one for Either.
#[derive(Clone, Copy)]
pub struct Only<A>(pub A);
