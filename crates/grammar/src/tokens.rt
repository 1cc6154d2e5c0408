// The symbols of a query text: the tokens that are no names.
#[derive(Clone, Copy, Debug, PartialEq, Eq)]
pub enum Symbol {
    Slash,
    DoubleSlash,
    LeftBracket,
    RightBracket,
    LeftParen,
    RightParen,
    Star,
    DoubleColon,
}
