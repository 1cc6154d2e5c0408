// The text of what a query selects in a tree.
ghost use Rattle.std.specs.Prelude.{◌≡◌, ◌≤◌, length, IfOk, None, string_bytes};
ghost use Rattle.rows.specs.Rows.{count_of};
ghost use Rattle.query.specs.Queries.{query_of};
ghost use Rattle.tally.specs.Monoid.{marks_of};
ghost use Rattle.selector.specs.Calls.Call.{tally as tally_call};
ghost use Rattle.selector.specs.Steps.{state_of, refusal, told_nodes};
ghost use Rattle.choosing.specs.Choosing.{Tells};

use crate::report::report;
use names::slot::Slot;
use query::parsed::Query;
use select::prepare;
use selector::selector::Selector;
use std::alloc::{AllocError, Global};
use tally::Tally;
use tally::count::Count;
use tally::extent::Extent;
use tally::leading::LeadingTwelve;
use tree::Tree;

// The tally of all nodes, which is due.
fn whole<T: Tree, K: Tally + Drop>(selector: &Selector, tree: &T, work: &[u64], n: usize) -> K
    requires { refusal (state_of selector.now) (count_of (T.rows tree.now)) (length work.now) (tally_call 0 n) ≡ None }
    ensures { K.value result ≡ marks_of K.empty K.mark K.join (told_nodes (state_of selector.now) work.now 0 n) }
{
    selector.tally(tree, work, 0, n).unwrap()
}

// The text for a query, a name store and a tree, in lent memory.
pub(crate) fn select_text<T: Tree>(
    heap: Global,
    tree: &T,
    query: &Query,
    names: &[Slot],
    program: &mut [u8],
    work: &mut [u64],
) -> Result<String, AllocError>
    requires bytes { 2048 ≤ length program.old }
    requires words { 8192 ≤ length work.old }
    ensures { IfOk result (λ s. Tells names.now (query_of query.now) (T.rows tree.now) (string_bytes s)) }
{
    let mut selector = Selector::new();
    // granted, since there is memory enough; its other clause tells what is then ready
    let _ = prepare(&mut selector, query, names, tree, program, work);
    let n = tree.count();
    let selected: Count = whole(&selector, tree, work, n);
    let extent: Extent = whole(&selector, tree, work, n);
    let leading: LeadingTwelve = whole(&selector, tree, work, n);
    report(heap, n, selected, extent, leading)
}
