// The tokens of a query text, one at a time.
#![tactic(auto)]

ghost use Rattle.std.specs.Prelude.{◌≡◌, ℕ, Bool, ◌+◌, ◌<◌, ◌≤◌, length, drop};
ghost use Rattle.std.specs.List.{prefix_len};
ghost use Rattle.grammar.specs.Bytes.{white, named, begins};
ghost use Rattle.grammar.specs.Tokens.{first_is, name_of};
ghost use Rattle.grammar.specs.Machine.{same};
ghost use Rattle.grammar.specs.Glances.{number, fault_code, fault_place};
ghost use Rattle.query.specs.Faults.{code_of, place_of};
ghost use Rattle.lexer.specs.Lexing.{Tests, EndsReach, next_from, reached, placed, front, After};
ghost use Rattle.lexer.specs.Readers.{tokens_of, end_of, Sees, Accepts, Words, Keywords, Negates, Ends};

pub mod tokens;

use grammar::tokens::Symbol;
use query::fault::Fault;
use tokens::{Reach, Token, Word};

// A text and the place that it has been read to.
#[derive(Drop)]
pub struct Reader<'a> {
    pub text: &'a [u8],
    pub place: usize,
}

// not is_ascii_whitespace, which has the form feed too
fn is_white(b: u8) -> bool
    ensures { result ≡ white b }
{
    matches!(b as char, ' ' | '\t' | '\n' | '\r')
}

// The bytes of a name are the language's own rule: `names`, which has the same of slots, is no part of it.
fn is_begin(b: u8) -> bool
    ensures { result ≡ begins b }
{
    b.is_ascii_alphabetic() || b == b'_'
}

fn is_named(b: u8) -> bool
    ensures { result ≡ named b }
{
    is_begin(b) || b.is_ascii_digit() || b == b'-' || b == b'.'
}

// The bytes from a place on; none are past the end.
fn rest_from(text: &[u8], from: usize) -> &[u8]
    ensures { result.now ≡ drop from text.now }
{
    text.get(from..).unwrap_or(&[])
}

// Where the bytes from `from` on that pass a test end: no `skip`, which goes over the bytes before `from` one by one.
fn past<F: Fn(u8) -> bool>(text: &[u8], from: usize, test: F) -> usize
    requires { F.IsAlwaysCallable test }
    ensures is { (p : ℕ → Bool) → Tests p (F.post test) → result ≡ from + prefix_len p (drop from text.now) }
    ensures on { from ≤ result }
    ensures within { from ≤ length text.now → result ≤ length text.now }
{
    from + rest_from(text, from)
        .iter()
        .take_while(|b| test(**b))
        .count()
}

// Whether `b` stands at `at`. Here and below, the text and a place, and no reader: a look ahead has borrowed the place of that.
fn stands(text: &[u8], at: usize, b: u8) -> bool
    ensures { result ≡ first_is b (drop at text.now) }
{
    text.get(at) == Some(&b)
}

// Whether a name is the word.
pub fn same_bytes(name: &[u8], word: &[u8]) -> bool
    ensures { result ≡ same name.now word.now }
{
    name == word
}

// The name that begins at `at`. That a token ends in the text is said here and by the next two: a Reach has no text of its own.
fn name_at<'a>(text: &'a [u8], at: usize) -> Result<Reach<'a>, Fault>
    requires { at < length text.now }
    ensures value { reached result ≡ placed at (name_of (drop at text.now)) }
    ensures ends { EndsReach result (length text.now) }
{
    let end = past(text, at, is_named);
    if end - at > 32 {
        return Err(Fault::LongName(at));
    }
    Ok(Reach {
        token: Token::Name(&text[at..end]),
        at,
        end,
    })
}

// The token that begins at `at`, where white space has been passed.
fn token_at<'a>(text: &'a [u8], at: usize) -> Result<Reach<'a>, Fault>
    ensures value { reached result ≡ placed at (front (drop at text.now)) }
    ensures ends { EndsReach result (length text.now) }
{
    let Some(&b) = text.get(at) else {
        return Ok(Reach {
            token: Token::End,
            at: text.len(),
            end: at,
        });
    };
    let (symbol, width) = match b as char {
        '/' if stands(text, at + 1, b'/') => (Symbol::DoubleSlash, 2),
        '/' => (Symbol::Slash, 1),
        '[' => (Symbol::LeftBracket, 1),
        ']' => (Symbol::RightBracket, 1),
        '(' => (Symbol::LeftParen, 1),
        ')' => (Symbol::RightParen, 1),
        '*' => (Symbol::Star, 1),
        ':' if stands(text, at + 1, b':') => (Symbol::DoubleColon, 2),
        _ if is_begin(b) => return name_at(text, at),
        _ => return Err(Fault::NoToken(at)),
    };
    Ok(Reach {
        token: Token::Symbol(symbol),
        at,
        end: at + width,
    })
}

// The next token from `place` on; the place goes past it, unless it is refused. It is lent, since the guard of a look ahead
// holds it and puts it back.
fn next_token<'a>(text: &'a [u8], place: &mut usize) -> Result<Reach<'a>, Fault>
    ensures value { reached result ≡ next_from text.now place.old }
    ensures ends { EndsReach result (length text.now) }
    ensures after { After result place.old place.new }
{
    let at = past(text, *place, is_white);
    let reach = token_at(text, at)?;
    *place = reach.end;
    Ok(reach)
}

// Puts a reader's place back at its end.
struct LookAhead<'a> {
    place: &'a mut usize,
    saved: usize,
}

impl Drop for LookAhead<'_> {
    fn drop(self)
        ensures { self.exit.0.now ≡ self.entry.saved }
    {
        *self.place = self.saved;
        let LookAhead { place: _, saved: _ } = self;
    }
}

impl<'a> Reader<'a> {
    pub fn new(text: &'a [u8]) -> Reader<'a>
        ensures { (result.text.now ≡ text.now) × (result.place ≡ 0) }
    {
        Reader { text, place: 0 }
    }

    // The next token, with the reader left as it was.
    fn peek(&mut self) -> Result<Reach<'a>, Fault>
        ensures sees { Sees self.old.text.now self.old.place result }
        ensures stays { self.new ≡ self.old }
    {
        let text = self.text;
        let saved = self.place;
        let ahead = LookAhead {
            place: &mut self.place,
            saved,
        };
        next_token(text, ahead.place)
    }

    // Goes past the symbol where it stands next, and gives its place.
    pub fn accept(&mut self, want: Symbol) -> Option<usize>
        ensures { Accepts want result self.old self.new }
    {
        match self.peek() {
            Ok(
                Reach {
                    token: Token::Symbol(symbol),
                    at,
                    end,
                },
            ) if symbol == want => {
                self.place = end;
                Some(at)
            }
            _ => None,
        }
    }

    // Goes past a name where one stands next.
    pub fn word(&mut self) -> Option<Word<'a>>
        ensures { Words result self.old self.new }
    {
        match self.peek() {
            Ok(
                Reach {
                    token: Token::Name(bytes),
                    at,
                    end,
                },
            ) => {
                self.place = end;
                Some(Word { bytes, at })
            }
            _ => None,
        }
    }

    // Goes past the word where it stands next.
    pub fn keyword(&mut self, want: &[u8]) -> bool
        ensures { Keywords want.now result self.old self.new }
    {
        match self.peek() {
            Ok(
                Reach {
                    token: Token::Name(bytes),
                    end,
                    ..
                },
            ) if same_bytes(bytes, want) => {
                self.place = end;
                true
            }
            _ => false,
        }
    }

    // Goes past `not` and `(` where they stand next, and gives the place of `(`.
    pub fn negation(&mut self) -> Option<usize>
        ensures { Negates result self.old self.new }
    {
        // by its fields: a reader moves on, so it is not Copy
        let mut ahead = Reader {
            text: self.text,
            place: self.place,
        };
        if !ahead.keyword(b"not") {
            return None;
        }
        let at = ahead.accept(Symbol::LeftParen)?;
        self.place = ahead.place;
        Some(at)
    }

    // Whether the text ends here.
    pub fn at_end(&mut self) -> bool
        ensures { Ends result self.old self.new }
    {
        matches!(
            self.peek(),
            Ok(Reach {
                token: Token::End,
                ..
            })
        )
    }

    // How the token that stands next is refused where it may not stand.
    pub fn unexpected(&mut self) -> Fault
        ensures code { code_of result ≡ fault_code (tokens_of self.old) }
        ensures place { place_of result ≡ fault_place (end_of self.old) (tokens_of self.old) }
        ensures stays { self.new ≡ self.old }
    {
        match self.peek() {
            Ok(reach) => Fault::Syntax(reach.at),
            Err(fault) => fault,
        }
    }
}
