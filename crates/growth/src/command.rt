// What a growing feed takes.

#[derive(Clone, Copy, Debug, PartialEq, Eq)]
pub enum Command {
    // opens an element of a label
    Open(u16),
    // closes the element opened last
    Shut,
    // adds a text
    Text,
    // adds a name to the store
    Name([u8; 32]),
}
