// Reading paths and predicates, which hold one another. The levels left bound how deep the calls stand in one another.
// `Fit` is asked at each call: as ghost fields of the parser it would be owed at each reader that has moved on and each
// table between two rows, too.
ghost use Rattle.std.specs.Prelude.{◌≡◌};
ghost use Rattle.grammar.specs.declared.tokens.Symbol.TheVariants.{RightBracket, RightParen};
ghost use Rattle.query.specs.Shown.{where_of};
ghost use Rattle.reader.specs.Parsing.{Fit, Starts, next_of, PathTells, StepTells, FilterTells, EnclosedTells, PredTells, ConjTells, UnitTells};

use super::heads::lead;
use super::parts::{Lead, Parser};
use super::rows::{negate, next_index, push, write_step};
use grammar::tokens::Symbol;
use query::fault::Fault;
use query::table::{Region, Shape, Step, Table};

// The number of the step that it leads to.
fn next_step(table: &Table, region: Region, lead: Lead) -> Option<u8>
    ensures { result ≡ next_of (where_of region) lead table.now }
{
    match lead {
        Lead::Nothing => None,
        Lead::Slash | Lead::DoubleSlash => Some(next_index(table, region)),
    }
}

impl Parser<'_> {
    // A path, step by step.
    #[cycle(conjunction_enclosed_filter_path_predicate_step_unit)]
    pub(crate) fn path(&mut self, region: Region, levels: u8) -> Result<(), Fault>
        requires fit { Fit self.old }
        requires starts { Starts (where_of region) self.old }
        ensures { PathTells (where_of region) levels result self.old self.new }
    {
        let mut before = lead(&mut self.reader);
        let mut slash = before.is_slash();
        loop {
            let after = self.step(region, levels, before, slash)?;
            if !after.is_slash() {
                return Ok(());
            }
            before = after;
            slash = false;
        }
    }

    // A step with its bracket, and what leads to the next.
    #[cycle(conjunction_enclosed_filter_path_predicate_step_unit)]
    fn step(&mut self, region: Region, levels: u8, before: Lead, slash: bool) -> Result<Lead, Fault>
        requires fit { Fit self.old }
        ensures { StepTells (where_of region) levels before slash result self.old self.new }
    {
        let index = next_index(&self.table, region);
        let head = self.head(region, before)?;
        let bracket = self.filter(levels)?;
        let after = lead(&mut self.reader);
        let next = next_step(&self.table, region, after);
        let step = Step {
            slash,
            axis: head.axis,
            test: head.test,
            bracket,
            next,
        };
        write_step(&mut self.table, region, index, step);
        Ok(after)
    }

    // The predicate in the brackets of a step, if it has any.
    #[cycle(conjunction_enclosed_filter_path_predicate_step_unit)]
    fn filter(&mut self, levels: u8) -> Result<Option<u8>, Fault>
        requires fit { Fit self.old }
        ensures { FilterTells levels result self.old self.new }
    {
        match self.reader.accept(Symbol::LeftBracket) {
            Some(at) => Ok(Some(self.enclosed(levels, at, Symbol::RightBracket)?)),
            None => Ok(None),
        }
    }

    // What stands in brackets or parentheses, of which the opening one, at `at`, was read.
    #[cycle(conjunction_enclosed_filter_path_predicate_step_unit)]
    fn enclosed(&mut self, levels: u8, at: usize, shut: Symbol) -> Result<u8, Fault>
        requires fit { Fit self.old }
        ensures { EnclosedTells levels at shut result self.old self.new }
    {
        if levels == 0 {
            return Err(Fault::Deep(at));
        }
        let inner = self.predicate(levels - 1)?;
        // a `match`: an `ok_or_else` would borrow the reader once more and say no more
        match self.reader.accept(shut) {
            Some(_) => Ok(inner),
            None => Err(self.reader.unexpected()),
        }
    }

    // Conjunctions joined by `or`: a rule of the grammar beside `conjunction`, and each calls the rule below it.
    #[cycle(conjunction_enclosed_filter_path_predicate_step_unit)]
    fn predicate(&mut self, levels: u8) -> Result<u8, Fault>
        requires fit { Fit self.old }
        ensures { PredTells levels result self.old self.new }
    {
        let mut left = self.conjunction(levels)?;
        while self.reader.keyword(b"or") {
            let right = self.conjunction(levels)?;
            left = push(&mut self.table, Shape::Or(left, right));
        }
        Ok(left)
    }

    // Units joined by `and`.
    #[cycle(conjunction_enclosed_filter_path_predicate_step_unit)]
    fn conjunction(&mut self, levels: u8) -> Result<u8, Fault>
        requires fit { Fit self.old }
        ensures { ConjTells levels result self.old self.new }
    {
        let mut left = self.unit(levels)?;
        while self.reader.keyword(b"and") {
            let right = self.unit(levels)?;
            left = push(&mut self.table, Shape::And(left, right));
        }
        Ok(left)
    }

    // A negation, a group or a path.
    #[cycle(conjunction_enclosed_filter_path_predicate_step_unit)]
    fn unit(&mut self, levels: u8) -> Result<u8, Fault>
        requires fit { Fit self.old }
        ensures { UnitTells levels result self.old self.new }
    {
        if let Some(at) = self.reader.negation() {
            let inner = self.enclosed(levels, at, Symbol::RightParen)?;
            negate(&mut self.table, inner);
            return Ok(inner);
        }
        if let Some(at) = self.reader.accept(Symbol::LeftParen) {
            return self.enclosed(levels, at, Symbol::RightParen);
        }
        let first = self.table.inside_count;
        self.path(Region::Inside, levels)?;
        Ok(push(&mut self.table, Shape::Path(first)))
    }
}
