// What each call does, by the phase and the call together. The tree and the work area are lent at each call, so no struct
// holds them.
ghost use Rattle.std.specs.Prelude.{◌≡◌, true, [], length, take};
ghost use Rattle.rows.specs.Rows.{count_of};
ghost use Rattle.commands.specs.Commands.{commands_of};
ghost use Rattle.commands.specs.Rules.{after_deciding};
ghost use Rattle.tally.specs.Monoid.{marks_of};
ghost use Rattle.selector.specs.Calls.Call.{load as load_call, rise as rise_call, fall as fall_call, tally as tally_call};
ghost use Rattle.selector.specs.Codes.{code_of};
ghost use Rattle.selector.specs.declared.fault.Fault.TheVariants.{Program};
ghost use Rattle.selector.specs.Steps.{State, state_of, fresh, refusal, unready, outcome, left_over, state_after, words_after, valued, told_nodes};

use crate::falling::fall_over;
use crate::fault::Fault;
use crate::marking::join_marks;
use crate::phase::Phase;
use crate::rising::rise_over;
use crate::selector::Selector;
use program::check::check;
use program::fault::Fault as ProgramFault;
use program::rules::rules_start;
use tally::Tally;
use tallying::lies_in;
use tree::Tree;

impl Selector {
    // A selector with no program loaded.
    pub fn new() -> Selector
        ensures { state_of result ≡ fresh }
    {
        Selector {
            program: [0; 2048],
            len: 0,
            rules: 0,
            count: 0,
            phase: Phase::Empty,
        }
    }

    fn bytes(&self) -> &[u8]
        ensures { result.now ≡ take self.now.len self.now.program }
    {
        &self.program[..self.len]
    }

    // the bytes of the sending states
    fn sending(&self) -> &[u8]
        ensures { commands_of result.now ≡ after_deciding (commands_of (take self.now.len self.now.program)) }
    {
        &self.program[self.rules..self.len]
    }

    // Checks and copies a program, notes the number of nodes and begins rising.
    pub fn load<T: Tree>(&mut self, tree: &T, program: &[u8]) -> Result<(), Fault>
        ensures answer { result ≡ outcome (refusal (state_of self.old) (count_of (T.rows tree.now)) 0 (load_call program.now)) tt }
        ensures state { state_of self.new ≡ state_after (T.rows tree.now) (state_of self.old) [] (load_call program.now) }
    {
        check(program)?;
        self.program[0..program.len()].copy_from_slice(program);
        self.len = program.len();
        self.rules = rules_start(program);
        self.count = tree.count();
        self.phase = Phase::Rising { left: self.count };
        Ok(())
    }

    // Whether a program is loaded, for this tree, and the work area has a word a node.
    fn ready<T: Tree>(&self, tree: &T, work: &[u64]) -> Result<(), Fault>
        ensures { result ≡ outcome (unready (state_of self.now) (count_of (T.rows tree.now)) (length work.now) true) tt }
    {
        if self.phase == Phase::Empty {
            return Err(Fault::NoProgram);
        }
        if tree.count() != self.count {
            return Err(Fault::OtherTree);
        }
        if work.len() < self.count {
            return Err(Fault::SmallWork);
        }
        Ok(())
    }

    // Rises over k nodes or all that are left, from the last down, and answers the number left.
    pub fn rise<T: Tree>(&mut self, tree: &T, work: &mut [u64], k: usize) -> Result<usize, Fault>
        ensures answer { result ≡ outcome (refusal (state_of self.old) (count_of (T.rows tree.now)) (length work.old) (rise_call k)) (left_over self.old.phase self.old.count k) }
        ensures state { state_of self.new ≡ state_after (T.rows tree.now) (state_of self.old) work.old (rise_call k) }
        ensures words { work.new ≡ words_after (T.rows tree.now) (state_of self.old) work.old (rise_call k) }
    {
        self.ready(tree, work)?;
        match self.phase {
            Phase::Rising { left } => {
                let stop = left.saturating_sub(k);
                rise_over(tree, self.bytes(), stop, left, work);
                self.phase = if stop == 0 {
                    Phase::Falling { next: 0 }
                } else {
                    Phase::Rising { left: stop }
                };
                Ok(stop)
            }
            _ => Err(Fault::WrongPhase),
        }
    }

    // Falls over k nodes or all that are left, from the first up, and answers the number left.
    pub fn fall<T: Tree>(&mut self, tree: &T, work: &mut [u64], k: usize) -> Result<usize, Fault>
        ensures answer { result ≡ outcome (refusal (state_of self.old) (count_of (T.rows tree.now)) (length work.old) (fall_call k)) (left_over self.old.phase self.old.count k) }
        ensures state { state_of self.new ≡ state_after (T.rows tree.now) (state_of self.old) work.old (fall_call k) }
        ensures words { work.new ≡ words_after (T.rows tree.now) (state_of self.old) work.old (fall_call k) }
    {
        self.ready(tree, work)?;
        let Phase::Falling { next } = self.phase else {
            return Err(Fault::WrongPhase);
        };
        let left = (self.count - next).saturating_sub(k);
        fall_over(tree, self.sending(), next, self.count - left, work);
        self.phase = if left == 0 {
            Phase::Settled
        } else {
            Phase::Falling { next: next + k }
        };
        Ok(left)
    }

    // Joins the marks of the marked nodes from lo to hi minus 1, in document order.
    pub fn tally<T: Tree, K: Tally + Drop>(
        &self,
        tree: &T,
        work: &[u64],
        lo: usize,
        hi: usize,
    ) -> Result<K, Fault>
        ensures { valued K.value result ≡ outcome (refusal (state_of self.now) (count_of (T.rows tree.now)) (length work.now) (tally_call lo hi)) (marks_of K.empty K.mark K.join (told_nodes (state_of self.now) work.now lo hi)) }
    {
        self.ready(tree, work)?;
        if self.phase != Phase::Settled {
            return Err(Fault::WrongPhase);
        }
        if !lies_in(lo, hi, self.count) {
            return Err(Fault::NoSpan);
        }
        Ok(join_marks(self.sending(), work, lo, hi))
    }
}

impl From<ProgramFault> for Fault {
    ghost from_gives = { λ refusal fault. fault ≡ Program refusal };

    fn from(refusal: ProgramFault) -> Fault {
        Fault::Program(refusal)
    }
}

impl Fault {
    // The number by which a refusal is known: by a match, since one of the cases has a field.
    pub fn code(self) -> u8
        ensures { result ≡ code_of self }
    {
        match self {
            Fault::Program(fault) => fault.code(),
            Fault::NoProgram => 17,
            Fault::OtherTree => 18,
            Fault::SmallWork => 19,
            Fault::WrongPhase => 20,
            Fault::NoSpan => 21,
        }
    }
}
