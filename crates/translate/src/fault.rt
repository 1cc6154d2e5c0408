// Why a translation is refused: a list of its own, as each kind of call has one, though a spelling has the same case.

#[derive(Clone, Copy, Debug, PartialEq, Eq)]
pub enum Fault {
    // the buffer has fewer than 2,048 bytes
    Memory = 11,
}
