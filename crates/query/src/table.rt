// The steps and predicates of a query, as rows that refer to one another by their numbers, since nothing is allocated.

#[derive(Clone, Copy, Debug, PartialEq, Eq)]
pub enum Axis {
    SelfNode,
    Child,
    Descendant,
    FollowingSibling,
}

// A name is a part of the query's text, by its place, since a query is copied and borrows nothing.
#[derive(Clone, Copy, Debug, PartialEq, Eq)]
pub enum NodeTest {
    Element,
    Name { at: u16, len: u8 },
    Text,
    Node,
}

// Where a path stands: outside brackets or inside.
#[derive(Clone, Copy, Debug, PartialEq, Eq)]
pub enum Region {
    Outside,
    Inside,
}

// A step of a path. `slash`: it begins a path that has a leading slash. `bracket`: the predicate in its brackets.
// `next`: the step after it in its path.
#[derive(Clone, Copy, Debug, PartialEq, Eq)]
pub struct Step {
    pub slash: bool,
    pub axis: Axis,
    pub test: NodeTest,
    pub bracket: Option<u8>,
    pub next: Option<u8>,
}

// What a predicate says: that a path, named by its first step, reaches some node, or two predicates joined.
#[derive(Clone, Copy, Debug, PartialEq, Eq)]
pub enum Shape {
    Path(u8),
    And(u8, u8),
    Or(u8, u8),
}

// A predicate, with the number of `not` around it.
#[derive(Clone, Copy, Debug, PartialEq, Eq)]
pub struct Predicate {
    pub negations: u8,
    pub shape: Shape,
}

// The steps outside brackets and those inside, each in the order of the text, and the predicates, each after those
// that it joins and those in the brackets of its path. Each count stands beside rows of a fixed number, since a query
// is copied and nothing is allocated.
#[derive(Clone, Copy)]
pub struct Table {
    pub outside: [Step; 16],
    pub outside_count: u8,
    pub inside: [Step; 23],
    pub inside_count: u8,
    pub predicates: [Predicate; 46],
    pub predicate_count: u8,
}
