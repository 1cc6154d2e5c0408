// Why a feed refuses a command.

#[derive(Clone, Copy, Debug, PartialEq, Eq)]
pub enum Fault {
    // a slot holds no name, repeats one or is the 513th
    Slot = 8,
    // the label of an OPEN is not 2 to names + 1
    Label = 9,
    // the feed has 8,192 nodes
    Full = 10,
    // memory is too small
    Memory = 11,
    // only the root is open
    RootOnly = 12,
    // an element is open
    StillOpen = 13,
}
