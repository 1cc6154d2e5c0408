// The deciding states of all nodes, from the last node down.
ghost use Rattle.std.specs.Prelude.{◌≡◌, ◌-◌, ◌≤◌, length};
ghost use base.Stored.{Coded-set};
ghost use Rattle.commands.specs.Commands.{commands_of};
ghost use Rattle.commands.specs.Deciding.{decide};
ghost use Rattle.commands.specs.Asked.{asked as asked_of, nothing, seen as seen_of, Fits};
ghost use Rattle.sweep.specs.Rising.{word_of, node_at, word_at, risen};

use crate::seen::Seen;
use commands::node::{Asked, Node};
use memo::{Computation, Recalling};
use program::deciding::{asked, decided};
use tree::Tree;
use words::put_bit;

// the word of a node that a question gave, 0 where there is none
fn asked_word(work: &[u64], node: Option<usize>) -> u64
    ensures { result ≡ word_of work.now node }
{
    node.and_then(|w| work.get(w)).map_or(0, |word| *word)
}

// The words of nodes, by the formulas of a program.
#[derive(Clone, Copy)]
struct Deciding<'a> {
    program: &'a [u8],
}

impl Computation for Deciding<'_> {
    type Key = Seen;

    type Value = u64;

    ghost answer = { λ d node. decide node.0 (commands_of d.program.now) 0 0 0 };

    fn compute(&self, Seen(node): Seen) -> u64 {
        decided(self.program, node)
    }
}

// A rise over a tree: what the formulas ask of its nodes, and the words of nodes that look as one that was met lately.
#[derive(Drop)]
struct Rise<'a, T> {
    tree: &'a T,
    asked: Asked,
    words: Recalling<Deciding<'a>>,
    ghost asks: { asked ≡ asked_of (commands_of words.program.now) nothing } by { Coded-set asked-code asked (asked_of (commands_of words.program.now) nothing) },
}

// The work area is written between two words, so it is lent to each.
impl<'a, T: Tree> Rise<'a, T> {
    fn new(tree: &'a T, program: &'a [u8]) -> Rise<'a, T>
        ensures tree { result.tree.now ≡ tree.now }
        ensures program { result.words.program.now ≡ program.now }
    {
        Rise {
            tree,
            asked: asked(program),
            words: Recalling::new(Deciding { program }),
        }
    }

    // What the formulas see of node v, as far as they ask: a question to the tree whose answer none asks for is not put.
    fn seen(&self, work: &[u64], v: usize) -> Node
        ensures exact { result ≡ seen_of self.now.asked (node_at (T.rows self.now.tree.now) work.now v) }
        ensures fits { Fits (node_at (T.rows self.now.tree.now) work.now v) }
    {
        let first = (self.asked.first != 0).then(|| self.tree.first_child(v));
        let next = (self.asked.next != 0).then(|| self.tree.next_sibling(v));
        Node {
            label: self.tree.label(v),
            first: asked_word(work, first.flatten()) & self.asked.first,
            next: asked_word(work, next.flatten()) & self.asked.next,
        }
    }

    // the word of node v; the root also enters the sending state 0
    fn word(&mut self, work: &[u64], v: usize) -> u64
        ensures word { result ≡ word_at (T.rows self.old.tree.now) (commands_of self.old.words.program.now) work.now v }
        ensures tree { self.new.tree.now ≡ self.old.tree.now }
        ensures program { self.new.words.program.now ≡ self.old.words.program.now }
    {
        let seen = self.seen(work, v);
        put_bit(self.words.recall(Seen(seen)), 40, v == 0)
    }
}

// Writes the words of the nodes from lo to hi minus 1, the last first. The span is asked to lie in the work area, which is
// lent and no part of a selector.
pub(crate) fn rise_over<T: Tree>(tree: &T, program: &[u8], lo: usize, hi: usize, work: &mut [u64])
    requires { (lo ≤ hi) × (hi ≤ length work.old) }
    ensures { work.new ≡ risen (T.rows tree.now) (commands_of program.now) lo (hi - lo) work.old }
{
    let mut rise = Rise::new(tree, program);
    // by number: a word is written from the words of later nodes
    for v in (lo..hi).rev() {
        let word = rise.word(work, v);
        work[v] = word;
    }
}
