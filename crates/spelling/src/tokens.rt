// Writing tokens.
ghost use Rattle.std.specs.Prelude.{◌≡◌, false, [], ◌∷◌};
ghost use Rattle.grammar.specs.Tokens.{symbol, word};
ghost use Rattle.grammar.specs.Spelling.{glyph};
ghost use Rattle.spelling.specs.Spellings.{only};
ghost use Rattle.spelling.specs.Writing.{Puts, Emits, gap_of};

use super::writer::Writer;
use grammar::tokens::Symbol;

// The characters of a symbol.
fn glyph_of(which: Symbol) -> &'static [u8]
    ensures { result.now ≡ glyph which }
{
    match which {
        Symbol::Slash => b"/",
        Symbol::DoubleSlash => b"//",
        Symbol::LeftBracket => b"[",
        Symbol::RightBracket => b"]",
        Symbol::LeftParen => b"(",
        Symbol::RightParen => b")",
        Symbol::Star => b"*",
        Symbol::DoubleColon => b"::",
    }
}

impl Writer {
    // Nothing written.
    pub(crate) fn new() -> Writer
        ensures len { result.len ≡ 0 }
        ensures word { result.word ≡ false }
    {
        Writer {
            bytes: [0; 512],
            len: 0,
            word: false,
        }
    }

    // A space after a word.
    fn space(&mut self)
        ensures { Puts (gap_of self.old.word) self.old self.new }
    {
        if self.word {
            self.puts(b" ");
        }
    }

    // The bytes, where there is room.
    fn puts(&mut self, bytes: &[u8])
        ensures { Puts bytes.now self.old self.new }
    {
        if bytes.len() <= 512 - self.len {
            let to = self.len + bytes.len();
            self.bytes[self.len..to].copy_from_slice(bytes);
            self.len = to;
        }
    }

    // Writes a symbol.
    pub(crate) fn write_symbol(&mut self, which: Symbol)
        ensures { Emits (λ us. symbol which ∷ us) self.old self.new }
    {
        self.puts(glyph_of(which));
        self.word = false;
    }

    // Writes a symbol where it is wanted.
    pub(crate) fn write_if(&mut self, wanted: bool, which: Symbol)
        ensures { Emits (only which wanted) self.old self.new }
    {
        if wanted {
            self.write_symbol(which);
        }
    }

    // Writes a word, with a space before it where a word stands before it.
    pub(crate) fn write_word(&mut self, bytes: &[u8])
        ensures { Emits (λ us. word bytes.now ∷ us) self.old self.new }
    {
        self.space();
        self.puts(bytes);
        self.word = true;
    }
}
