// The marked nodes, and the join of their marks.
ghost use Rattle.std.specs.Prelude.{◌≡◌, ◌-◌, ◌≤◌, false, length};
ghost use Rattle.commands.specs.Commands.{commands_of};
ghost use Rattle.sweep.specs.Falling.{marking};
ghost use Rattle.tally.specs.Monoid.{marks_of};
ghost use Rattle.tallying.specs.Nodes.{marked_nodes};

use crate::falling::{acts, is_entered};
use commands::command::{Command, Move};
use memo::{Computation, Recalling};
use program::decode::Commands;
use tally::Tally;

// Whether the rules mark the node of the word. Beside `sending`: a mark ends the walk and looks at the word alone, while a move
// changes what later states see.
fn marked(rules: &[u8], word: u64) -> bool
    ensures { result ≡ marking word (commands_of rules.now) 0 false }
{
    let mut state: usize = 0;
    let mut active = false;
    for command in Commands::new(rules) {
        match command {
            Command::When(p) => active = acts(word, state, p),
            Command::Make(Move::Mark) if active => return true,
            Command::Make(_) => {}
            Command::Done => {
                state += 1;
                active = false;
            }
            _ => return false,
        }
    }
    false
}

// Which nodes the rules mark, by their words.
#[derive(Clone, Copy)]
struct Marks<'a> {
    rules: &'a [u8],
}

impl Computation for Marks<'_> {
    type Key = u64;

    type Value = bool;

    ghost answer = { λ m word. marking word (commands_of m.rules.now) 0 false };

    fn compute(&self, word: u64) -> bool {
        marked(self.rules, word)
    }
}

// Whether the node of the word is marked: one that no state enters is not.
#[tactic(auto, using(sweep::proofs::Idle::idle_marking))]
fn is_marked(marks: &mut Recalling<Marks>, word: u64) -> bool
    ensures marked { result ≡ marking word (commands_of marks.old.rules.now) 0 false }
    ensures same { marks.new ≡ marks.old }
{
    is_entered(word) && marks.recall(word)
}

// The join of the marks of the marked nodes from lo to hi minus 1.
pub(crate) fn join_marks<K: Tally + Drop>(rules: &[u8], work: &[u64], lo: usize, hi: usize) -> K
    requires { (lo ≤ hi) × ((hi ≤ length work.now) × (hi ≤ 8192)) }
    ensures { K.value result ≡ marks_of K.empty K.mark K.join (marked_nodes (commands_of rules.now) work.now lo (hi - lo)) }
{
    let mut marks = Recalling::new(Marks { rules });
    let mut sum = K::none();
    for (i, word) in work[lo..hi].iter().enumerate() {
        if is_marked(&mut marks, *word) {
            sum = sum.joined(K::marked((lo + i) as u16));
        }
    }
    sum
}
