// A selector settled in one call: a program loaded, and both sweeps over all nodes.
#![tactic(auto)]

ghost use Rattle.std.specs.Prelude.{◌≡◌, ℕ, List, None};
ghost use Rattle.grammar.specs.Syntax.{Path};
ghost use Rattle.selection.specs.Selects.{Store};
ghost use Rattle.translation.specs.Translation.{Translation};
ghost use Rattle.selector.specs.Steps.{state_of, outcome};
ghost use Rattle.settle.specs.Settling.{settle_refusal, settled_state, settled_words, Ready};

use program::check::check;
use selector::fault::Fault;
use selector::selector::Selector;
use tree::Tree;

// Loads a program, rises and falls over all nodes of a tree. A refusal changes nothing. With a translation of a query
// loaded, every tally of a span in the tree then tells of the nodes of the span that the query selects.
pub fn settle<T: Tree>(
    selector: &mut Selector,
    tree: &T,
    program: &[u8],
    work: &mut [u64],
) -> Result<(), Fault>
    ensures answer { result ≡ outcome (settle_refusal (T.rows tree.now) program.now work.old) tt }
    ensures state { state_of selector.new ≡ settled_state (T.rows tree.now) program.now (state_of selector.old) work.old }
    ensures words { work.new ≡ settled_words (T.rows tree.now) program.now work.old }
    ensures ready { (names : Store) (q : Path) → Translation names q program.now → settle_refusal (T.rows tree.now) program.now work.old ≡ None → Ready names q (T.rows tree.now) (state_of selector.new) work.new }
{
    check(program)?;
    let n = tree.count();
    if work.len() < n {
        return Err(Fault::SmallWork);
    }
    selector.load(tree, program)?;
    selector.rise(tree, work, n)?;
    selector.fall(tree, work, n)?;
    Ok(())
}
