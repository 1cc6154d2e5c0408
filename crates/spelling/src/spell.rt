// Writing paths and predicates, which hold one another.
ghost use Rattle.std.specs.Prelude.{◌≡◌, ℕ, ◌+◌, ◌<◌, ◌≤◌, List, Some, take, drop};
ghost use Rattle.grammar.specs.Syntax.{Filter, Pred, in_filter, in_pred};
ghost use Rattle.grammar.specs.Syntax.{NodeTest as NodeTests};
ghost use Rattle.grammar.specs.Spelling.{test_t, filter_t, pred_t, or_wraps, and_wraps};
ghost use Rattle.query.specs.Shown.{where_of, axis_of, ShowsTest, ShowsFilter, ShowsPred, step_at, predicate_at, below, preds_filter};
ghost use Rattle.query.specs.Queries.{text_of};
ghost use Rattle.spelling.specs.Writing.{Emits};
ghost use Rattle.spelling.specs.Spellings.{most, place_of, lead_t, named_t, type_t, name_t, Part, rest_t, ShowsFrom, preds_parts, nots, Later};

use super::parts::Place;
use super::writer::Writer;
use grammar::tokens::Symbol;
use query::parsed::Query;
use query::table::{Axis, NodeTest, Predicate, Region, Shape, Step};

// A step of a query, where there is such a row.
pub(crate) fn step_at(query: &Query, region: Region, index: u8) -> Option<Step>
    ensures { index < most (where_of region) → result ≡ Some (step_at (where_of region) query.now.table index) }
{
    match region {
        Region::Outside => query.table.outside.get(index as usize).copied(),
        Region::Inside => query.table.inside.get(index as usize).copied(),
    }
}

// A predicate of a query, where there is such a row.
fn predicate_at(query: &Query, index: u8) -> Option<Predicate>
    ensures { index < 46 → result ≡ Some (predicate_at query.now.table index) }
{
    query.table.predicates.get(index as usize).copied()
}

// Whether `or` stands in parentheses there: a name for each of the two, as the definitions of the spelling have.
fn or_wraps(place: Place) -> bool
    ensures { result ≡ or_wraps (place_of place) }
{
    place > Place::Low
}

// Whether `and` stands in parentheses there.
fn and_wraps(place: Place) -> bool
    ensures { result ≡ and_wraps (place_of place) }
{
    place > Place::Middle
}

// A number, where it is above another.
fn later(next: Option<u8>, index: u8) -> Option<u8>
    ensures { Later next index result }
{
    next.filter(|k| index < *k)
}

// A query is lent beside the writer: held in it, each method would owe that it stays.
impl Writer {
    // Writes `::` after the name of an axis.
    fn write_named_axis(&mut self, name: &[u8])
        ensures { Emits (named_t name.now) self.old self.new }
    {
        self.write_word(name);
        self.write_symbol(Symbol::DoubleColon);
    }

    // Writes what stands before the node test of a step.
    fn write_axis(&mut self, slash: bool, axis: Axis)
        ensures { Emits (lead_t slash (axis_of axis)) self.old self.new }
    {
        match axis {
            Axis::SelfNode => {
                self.write_if(slash, Symbol::Slash);
                self.write_named_axis(b"self");
            }
            Axis::Child => self.write_if(slash, Symbol::Slash),
            Axis::Descendant => {
                if slash {
                    self.write_symbol(Symbol::DoubleSlash);
                } else {
                    self.write_named_axis(b"descendant");
                }
            }
            Axis::FollowingSibling => {
                self.write_if(slash, Symbol::Slash);
                self.write_named_axis(b"following-sibling");
            }
        }
    }

    // Writes a node type.
    fn write_type(&mut self, name: &[u8])
        ensures { Emits (type_t name.now) self.old self.new }
    {
        self.write_word(name);
        self.write_symbol(Symbol::LeftParen);
        self.write_symbol(Symbol::RightParen);
    }

    // Writes a name, which is a part of the text.
    fn write_name(&mut self, query: &Query, at: u16, len: u8)
        ensures { at + len ≤ 512 → Emits (name_t (take len (drop at query.now.text))) self.old self.new }
    {
        let from = at as usize;
        if let Some(name) = query.text.get(from..from + len as usize) {
            self.write_word(name);
        }
    }

    // Writes a node test.
    fn write_test(&mut self, query: &Query, test: NodeTest)
        ensures { (t : NodeTests) → ShowsTest (text_of query.now) test t → Emits (test_t t) self.old self.new }
    {
        match test {
            NodeTest::Element => self.write_symbol(Symbol::Star),
            NodeTest::Name { at, len } => self.write_name(query, at, len),
            NodeTest::Text => self.write_type(b"text"),
            NodeTest::Node => self.write_type(b"node"),
        }
    }

    // Writes the steps of a path, whose predicates are below `limit`.
    #[cycle(write_filter_write_negated_write_predicate_write_shape_write_steps)]
    pub(crate) fn write_steps(
        &mut self,
        query: &Query,
        region: Region,
        first: Option<u8>,
        slash: bool,
        limit: u8,
    )
        ensures { (ps : List Part) (s a c : ℕ) → ShowsFrom (where_of region) (text_of query.now) query.now.table first ps s a c → c + preds_parts ps ≤ limit → limit ≤ 46 → Emits (rest_t slash ps) self.old self.new }
    {
        let mut from = first;
        let mut led = slash;
        while let Some(index) = from {
            let Some(step) = step_at(query, region, index) else {
                return;
            };
            self.write_axis(led, step.axis);
            self.write_test(query, step.test);
            self.write_filter(query, step.bracket, limit);
            from = later(step.next, index);
            led = true;
        }
    }

    // Writes the brackets of a step.
    #[cycle(write_filter_write_negated_write_predicate_write_shape_write_steps)]
    fn write_filter(&mut self, query: &Query, bracket: Option<u8>, limit: u8)
        ensures { (f : Filter) (a c : ℕ) → ShowsFilter (text_of query.now) query.now.table bracket f a c → a + in_filter f ≤ 23 → c + preds_filter f ≤ limit → limit ≤ 46 → Emits (filter_t f) self.old self.new }
    {
        if let Some(inner) = bracket
            && inner < limit
        {
            self.write_symbol(Symbol::LeftBracket);
            self.write_predicate(query, inner, Place::Low);
            self.write_symbol(Symbol::RightBracket);
        }
    }

    // Writes a predicate with the `not` around it.
    #[cycle(write_filter_write_negated_write_predicate_write_shape_write_steps)]
    fn write_predicate(&mut self, query: &Query, index: u8, place: Place)
        ensures { (x : Pred) (a c : ℕ) → index ≡ c + below x → index < 46 → a + in_pred x ≤ 23 → ShowsPred (text_of query.now) query.now.table x 0 a c → Emits (pred_t x (place_of place)) self.old self.new }
    {
        let Some(predicate) = predicate_at(query, index) else {
            return;
        };
        self.write_negated(query, index, predicate.negations, place);
    }

    // Writes a predicate with so many `not` around it.
    #[cycle(write_filter_write_negated_write_predicate_write_shape_write_steps)]
    fn write_negated(&mut self, query: &Query, index: u8, negations: u8, place: Place)
        ensures { (x : Pred) (n a c : ℕ) → index ≡ c + below x → index < 46 → a + in_pred x ≤ 23 → negations ≡ nots x → ShowsPred (text_of query.now) query.now.table x n a c → Emits (pred_t x (place_of place)) self.old self.new }
    {
        if negations == 0 {
            self.write_shape(query, index, place);
            return;
        }
        self.write_word(b"not");
        self.write_symbol(Symbol::LeftParen);
        self.write_negated(query, index, negations - 1, Place::Low);
        self.write_symbol(Symbol::RightParen);
    }

    // Writes a predicate without the `not` around it.
    #[cycle(write_filter_write_negated_write_predicate_write_shape_write_steps)]
    fn write_shape(&mut self, query: &Query, index: u8, place: Place)
        ensures { (x : Pred) (n a c : ℕ) → index ≡ c + below x → index < 46 → a + in_pred x ≤ 23 → nots x ≡ 0 → ShowsPred (text_of query.now) query.now.table x n a c → Emits (pred_t x (place_of place)) self.old self.new }
    {
        let Some(predicate) = predicate_at(query, index) else {
            return;
        };
        match predicate.shape {
            Shape::Path(first) => {
                let Some(step) = step_at(query, Region::Inside, first) else {
                    return;
                };
                self.write_steps(query, Region::Inside, Some(first), step.slash, index);
            }
            // `and` and `or` differ in their word, in both places and in when they are wrapped, which is all but `write_if`.
            Shape::And(left, right) => {
                if left.max(right) < index {
                    let wrapped = and_wraps(place);
                    self.write_if(wrapped, Symbol::LeftParen);
                    self.write_predicate(query, left, Place::Middle);
                    self.write_word(b"and");
                    self.write_predicate(query, right, Place::High);
                    self.write_if(wrapped, Symbol::RightParen);
                }
            }
            Shape::Or(left, right) => {
                if left.max(right) < index {
                    let wrapped = or_wraps(place);
                    self.write_if(wrapped, Symbol::LeftParen);
                    self.write_predicate(query, left, Place::Low);
                    self.write_word(b"or");
                    self.write_predicate(query, right, Place::Middle);
                    self.write_if(wrapped, Symbol::RightParen);
                }
            }
        }
    }
}
