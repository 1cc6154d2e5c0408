// Several kinds of tally in one list of calls.
ghost use Rattle.std.specs.Prelude.{◌≡◌, ℕ, zero, suc, length};
ghost use Rattle.rows.specs.Rows.{count_of};
ghost use Rattle.tally.specs.Monoid.{marks_of, Laws};
ghost use Rattle.selector.specs.Calls.Call.{tally as tally_call};
ghost use Rattle.selector.specs.Steps.{state_of, refusal, outcome, valued, told_nodes};
ghost use Rattle.history.specs.Pick.{Pick, picked};
ghost use Rattle.history.specs.Cases.{either_value};

use either::{Either, Left, Right};
use history::held::Only;
use selector::fault::Fault;
use selector::selector::Selector;
use tally::Tally;
use tree::Tree;

// Kinds of tally, numbered from 0; a number past the last means the last. For each it has what a Tally has for one: a trait
// beside Tally, since a number picks the kind, and the type of values varies with it.
pub trait Kinds: Sized {
    ghost Value: { ℕ → Type 0 };

    ghost value: { (i : ℕ) → Self → Value i };

    ghost empty: { (i : ℕ) → Value i };

    ghost mark: { (i : ℕ) → ℕ → Value i };

    ghost join: { (i : ℕ) → Value i → Value i → Value i };

    // A tally of the numbered kind.
    fn tally<T: Tree>(
        kind: u8,
        selector: &Selector,
        tree: &T,
        work: &[u64],
        lo: usize,
        hi: usize,
    ) -> Result<Self, Fault>
        ensures { valued (value kind) result ≡ outcome (refusal (state_of selector.now) (count_of (T.rows tree.now)) (length work.now) (tally_call lo hi)) (marks_of (empty kind) (mark kind) (join kind) (told_nodes (state_of selector.now) work.now lo hi)) };

    ghost laws: { (i : ℕ) → Laws (empty i) (join i) };
}

impl<K: Tally + Drop> Kinds for Only<K> {
    ghost Value = { λ _. K.Tally.Value };

    ghost value = { λ _ s. K.Tally.value s.0 };

    ghost empty = { λ _. K.Tally.empty };

    ghost mark = { λ _. K.Tally.mark };

    ghost join = { λ _. K.Tally.join };

    ghost laws = { λ _. record { assoc = K.Tally.assoc; left = K.Tally.left; right = K.Tally.right } };

    fn tally<T: Tree>(
        _kind: u8,
        selector: &Selector,
        tree: &T,
        work: &[u64],
        lo: usize,
        hi: usize,
    ) -> Result<Only<K>, Fault> {
        selector.tally(tree, work, lo, hi).map(Only)
    }
}

impl<A: Tally + Drop, B: Kinds + Drop> Kinds for Either<A, B> {
    ghost Value = { Pick A.Tally.Value B.Kinds.Value };

    ghost value = { either_value A.Tally.value A.Tally.empty B.Kinds.value B.Kinds.empty };

    ghost empty = { picked (λ V. V) A.Tally.empty B.Kinds.empty };

    ghost mark = { picked (λ V. ℕ → V) A.Tally.mark B.Kinds.mark };

    ghost join = { picked (λ V. V → V → V) A.Tally.join B.Kinds.join };

    ghost laws = { elim [
      | zero ↦ record { assoc = A.Tally.assoc; left = A.Tally.left; right = A.Tally.right }
      | suc i ↦ B.Kinds.laws i
    ] };

    fn tally<T: Tree>(
        kind: u8,
        selector: &Selector,
        tree: &T,
        work: &[u64],
        lo: usize,
        hi: usize,
    ) -> Result<Either<A, B>, Fault> {
        if kind == 0 {
            Ok(Left(selector.tally(tree, work, lo, hi)?))
        } else {
            Ok(Right(B::tally(kind - 1, selector, tree, work, lo, hi)?))
        }
    }
}
