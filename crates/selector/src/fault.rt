// Why a call is refused.
use program::fault::Fault as ProgramFault;

#[derive(Clone, Copy, Debug, PartialEq, Eq)]
pub enum Fault {
    Program(ProgramFault),
    // no program is loaded
    NoProgram,
    // the tree has another number of nodes than the one that the program was loaded for
    OtherTree,
    // the work area has too few words
    SmallWork,
    // not rising for a rise, falling for a fall or settled for a tally
    WrongPhase,
    // the span does not lie in the tree
    NoSpan,
}
