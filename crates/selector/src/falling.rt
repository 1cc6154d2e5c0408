// The sending states, from the first node up.
ghost use Rattle.std.specs.Prelude.{◌≡◌, ◌-◌, ◌<◌, ◌≤◌, false, length, nat_le};
ghost use Rattle.commands.specs.Commands.{commands_of};
ghost use Rattle.sweep.specs.Falling.{acting, sent, place_at, fallen};
ghost use Rattle.sweep.specs.Sending.{nothing_sent, with_move, sending as sending_of, entered_all, delivered};

use commands::command::{Command, Move};
use memo::{Computation, Recalling};
use program::decode::Commands;
use sweep::sending::Sending;
use tree::Tree;
use words::{has_bit, set_bit};

fn with_move(step: Move, sent: Sending) -> Sending
    ensures { result ≡ with_move step sent }
{
    match step {
        Move::Down(q) => Sending {
            down: set_bit(sent.down, 40 + q as usize),
            ..sent
        },
        Move::On(q) => Sending {
            on: set_bit(sent.on, 40 + q as usize),
            ..sent
        },
        Move::Stay(q) => Sending {
            here: set_bit(sent.here, 40 + q as usize),
            ..sent
        },
        Move::Mark => sent,
    }
}

// whether the state enters the node of the word, and p holds there
pub(crate) fn acts(word: u64, state: usize, p: u8) -> bool
    requires { state ≤ 0x7fff_ffff_ffff_ffff }
    ensures { result ≡ acting word state p }
{
    has_bit(word, 40 + state) && has_bit(word, p as usize)
}

// whether a sending state enters the node of the word
pub(crate) fn is_entered(word: u64) -> bool
    ensures { result ≡ nat_le 0x100_0000_0000 word }
{
    word >= 0x100_0000_0000
}

// What a node of the word sends: the moves of the states that enter it, from the first state up.
fn sending(rules: &[u8], word: u64) -> Sending
    ensures { result ≡ sending_of word (commands_of rules.now) 0 false nothing_sent }
{
    let mut state: usize = 0;
    let mut active = false;
    let mut sent = Sending {
        here: 0,
        down: 0,
        on: 0,
    };
    for command in Commands::new(rules) {
        match command {
            Command::When(p) => active = acts(word | sent.here, state, p),
            Command::Make(step) if active => sent = with_move(step, sent),
            Command::Make(_) => {}
            Command::Done => {
                state += 1;
                active = false;
            }
            _ => return sent,
        }
    }
    sent
}

// What nodes send, by their words.
#[derive(Clone, Copy)]
struct Sendings<'a> {
    rules: &'a [u8],
}

impl Computation for Sendings<'_> {
    type Key = u64;

    type Value = Sending;

    ghost answer = { λ s word. sending_of word (commands_of s.rules.now) 0 false nothing_sent };

    fn compute(&self, word: u64) -> Sending {
        sending(self.rules, word)
    }
}

// The states enter the node, where there is one.
fn enter(states: u64, node: Option<usize>, work: &mut [u64])
    ensures { work.new ≡ entered_all states node work.old }
{
    // `get_mut` says nothing of what the slice is after a write
    if let Some(w) = node
        && w < work.len()
    {
        work[w] |= states;
    }
}

// A fall over a tree, with what nodes sent whose words were met lately.
#[derive(Drop)]
struct Fall<'a, T> {
    tree: &'a T,
    sendings: Recalling<Sendings<'a>>,
}

impl<T: Tree> Fall<'_, T> {
    // Delivers what node v sends: a node that nothing is sent to is not asked for.
    fn deliver(&self, v: usize, sent: Sending, work: &mut [u64])
        ensures { work.new ≡ delivered (place_at (T.rows self.now.tree.now) v) sent work.old }
    {
        let first = (sent.down != 0).then(|| self.tree.first_child(v));
        let next = (sent.on != 0).then(|| self.tree.next_sibling(v));
        enter(sent.here, Some(v), work);
        enter(sent.down, first.flatten(), work);
        enter(sent.on, next.flatten(), work);
    }

    // Makes the moves of the states that enter node v, from the first state up.
    fn send(&mut self, v: usize, work: &mut [u64])
        requires { v < length work.old }
        ensures words { work.new ≡ sent (place_at (T.rows self.old.tree.now) v) (commands_of self.old.sendings.rules.now) 0 false work.old }
        ensures same { self.new ≡ self.old }
    {
        let sent = self.sendings.recall(work[v]);
        self.deliver(v, sent, work);
    }
}

// Falls over the nodes from lo to hi minus 1, the first first.
pub(crate) fn fall_over<T: Tree>(tree: &T, rules: &[u8], lo: usize, hi: usize, work: &mut [u64])
    requires { (lo ≤ hi) × (hi ≤ length work.old) }
    ensures { work.new ≡ fallen (T.rows tree.now) (commands_of rules.now) lo (hi - lo) work.old }
{
    let mut fall = Fall {
        tree,
        sendings: Recalling::new(Sendings { rules }),
    };
    // by number: the states of a node enter other words of the work area
    for v in lo..hi {
        if is_entered(work[v]) {
            fall.send(v, work);
        }
    }
}
