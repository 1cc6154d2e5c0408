// Any list of calls to a new selector, with tallies of any number of kinds, and the law of their answers.
ghost use Rattle.std.specs.Prelude.{◌≡◌, ℕ, ◌≤◌, min, length, drop};
ghost use Rattle.rows.specs.Rows.{count_of};
ghost use Rattle.selector.specs.Steps.{State, state_of, fresh, state_after, words_after};
ghost use Rattle.history.specs.Bits.{WordsMean};
ghost use Rattle.history.specs.History.{reply, Ran, progress, start};
ghost use Rattle.history.specs.Law.{Lawful};
ghost use Rattle.history.specs.Views.{call_by, of_kind, answer_by, turns_by};

use crate::kinds::Kinds;
use history::calls::{Answer, Call, Reply};
use selector::selector::Selector;
use tree::Tree;

// One call of any kind.
pub fn carry_out<T: Tree, S: Kinds + Drop>(
    selector: &mut Selector,
    tree: &T,
    work: &mut [u64],
    call: Call<'_>,
) -> Answer<S>
    ensures answer { (i : ℕ) → answer_by (S.value i) (of_kind i call.entry) result ≡ reply (S.empty i) (S.mark i) (S.join i) (T.rows tree.now) (state_of selector.old) work.old (call_by i call.entry) }
    ensures state { (i : ℕ) → state_of selector.new ≡ state_after (T.rows tree.now) (state_of selector.old) work.old (call_by i call.entry) }
    ensures words { (i : ℕ) → work.new ≡ words_after (T.rows tree.now) (state_of selector.old) work.old (call_by i call.entry) }
{
    match call {
        Call::Load(program) => {
            selector.load(tree, program)?;
            Ok(Reply::Loaded)
        }
        Call::Rise(k) => Ok(Reply::Left(selector.rise(tree, work, k)?)),
        Call::Fall(k) => Ok(Reply::Left(selector.fall(tree, work, k)?)),
        Call::Tally { kind, lo, hi } => {
            Ok(Reply::Value(S::tally(kind, selector, tree, work, lo, hi)?))
        }
    }
}

// Carries out the calls on a new selector, as many as there is room for answers, and says how many.
pub fn run<T: Tree, S: Kinds + Copy>(
    tree: &T,
    work: &mut [u64],
    calls: &[Call<'_>],
    answers: &mut [Answer<S>],
) -> usize
    ensures number { result ≡ min (length calls.now) (length answers.old) }
    ensures law { count_of (T.rows tree.now) ≤ length work.old → (i : ℕ) → Lawful (S.empty i) (S.mark i) (S.join i) (T.rows tree.now) (turns_by i (S.value i) calls.now answers.new) }
    ensures means { count_of (T.rows tree.now) ≤ length work.old → (i : ℕ) → WordsMean (T.rows tree.now) (progress start (turns_by i (S.value i) calls.now answers.new)) work.new }
    ensures exact { (s : State) × ((i : ℕ) → Ran (S.empty i) (S.mark i) (S.join i) (T.rows tree.now) fresh work.old (turns_by i (S.value i) calls.now answers.new) s work.new) }
    ensures rest { drop result answers.new ≡ drop result answers.old }
{
    let mut selector = Selector::new();
    let n = calls.len().min(answers.len());
    // by index: after a zip with iter_mut nothing is known of what was written through it
    for (i, call) in calls[..n].iter().enumerate() {
        answers[i] = carry_out(&mut selector, tree, work, *call);
    }
    n
}
