// Why a query text is refused, and where.

#[derive(Clone, Copy, Debug, PartialEq, Eq)]
pub enum Fault {
    // the text has more than 512 bytes
    Long,
    // a byte begins no token
    NoToken(usize),
    // a name has more than 32 bytes
    LongName(usize),
    // the tokens through this one begin no text of the grammar, or the text ends early
    Syntax(usize),
    // a 13th level opens
    Deep(usize),
    // a 17th step outside brackets or a 24th inside begins
    Many(usize),
}
