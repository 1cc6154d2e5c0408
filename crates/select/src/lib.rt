// The common case: from a query straight to what it selects.
#![tactic(auto)]

ghost use Rattle.std.specs.Prelude.{◌≡◌, length, Some, None, Ok, Err};
ghost use Rattle.rows.specs.Rows.{count_of};
ghost use Rattle.selector.specs.Steps.{state_of};
ghost use Rattle.select.specs.Faults.{code_of};
ghost use Rattle.select.specs.Selecting.{prepare_refusal, select_refusal, answered, Prepares, Tells};

pub mod fault;

use fault::Fault;
use names::slot::Slot;
use query::parsed::Query;
use selector::selector::Selector;
use settle::settle;
use tally::Tally;
use tallying::lies_in;
use translate::translate;
use tree::Tree;

impl Fault {
    // The number by which a refusal is known.
    pub fn code(self) -> u8
        ensures { result ≡ code_of self }
    {
        self as u8
    }
}

// Whether there are bytes for any program, and a word for each of so many nodes.
fn has_room(count: usize, program: &[u8], work: &[u64]) -> Result<(), Fault>
    ensures { result ≡ answered (prepare_refusal count (length program.now) (length work.now)) }
{
    if program.len() < 2048 {
        return Err(Fault::Memory);
    }
    if work.len() < count {
        return Err(Fault::SmallWork);
    }
    Ok(())
}

// Translates a query, loads the translation and sweeps over all nodes of a tree. Every tally of a span in the tree is then
// granted and tells of the nodes of the span that the query selects. A refusal changes nothing. Memory is lent at each call,
// each piece by itself, so no struct holds the pieces together.
pub fn prepare<T: Tree>(
    selector: &mut Selector,
    query: &Query,
    names: &[Slot],
    tree: &T,
    program: &mut [u8],
    work: &mut [u64],
) -> Result<(), Fault>
    ensures answer { result ≡ answered (prepare_refusal (count_of (T.rows tree.now)) (length program.old) (length work.old)) }
    ensures leaves { Prepares (prepare_refusal (count_of (T.rows tree.now)) (length program.old) (length work.old)) names.now query.now (T.rows tree.now) program.old program.new (state_of selector.old) (state_of selector.new) work.old work.new }
{
    has_room(tree.count(), program, work)?;
    let size = translate(query, names, program).unwrap();
    settle(selector, tree, &program[0..size], work).unwrap();
    Ok(())
}

// The tally of the nodes from lo to hi minus 1 that a query selects in a tree. A refusal changes nothing.
pub fn select<T: Tree, K: Tally + Drop>(
    selector: &mut Selector,
    query: &Query,
    names: &[Slot],
    tree: &T,
    program: &mut [u8],
    work: &mut [u64],
    lo: usize,
    hi: usize,
) -> Result<K, Fault>
    ensures answer { elim result [ Ok k ↦ (select_refusal (count_of (T.rows tree.now)) (length program.old) (length work.old) lo hi ≡ None) × Tells K.empty K.mark K.join names.now query.now (T.rows tree.now) lo hi (K.value k) | Err f ↦ select_refusal (count_of (T.rows tree.now)) (length program.old) (length work.old) lo hi ≡ Some f ] }
    ensures leaves { Prepares (select_refusal (count_of (T.rows tree.now)) (length program.old) (length work.old) lo hi) names.now query.now (T.rows tree.now) program.old program.new (state_of selector.old) (state_of selector.new) work.old work.new }
{
    let count = tree.count();
    has_room(count, program, work)?;
    if !lies_in(lo, hi, count) {
        return Err(Fault::NoSpan);
    }
    prepare(selector, query, names, tree, program, work)?;
    Ok(selector.tally(tree, work, lo, hi).unwrap())
}
