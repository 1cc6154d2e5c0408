// The language of queries: tokens, syntax, grammar and limits, what a text is read as, and the short spelling.
#![tactic(auto)]

ghost use Rattle.std.specs.Prelude.{◌≡◌, ℕ, ◌<◌, ◌≤◌, List, length};
ghost use Rattle.grammar.specs.Syntax.{Path};
ghost use Rattle.grammar.specs.Machine.{outcome, accepted, refused};
ghost use Rattle.grammar.specs.Claims.{Sound, Complete, Unambiguous, Code4, Limits, Worked};

pub mod levels;
pub mod spelling;
pub mod tokens;

// The most bytes of a text. Its contract also has what is proved of reading: a text is accepted exactly when the
// grammar has it within the limits, as one query at most, and each refusal stands where its code says.
pub fn most_bytes() -> usize
    ensures value { result ≡ 512 }
    ensures most { (bs : List ℕ) (q : Path) → outcome bs ≡ accepted q → length bs ≤ result }
    ensures long { (bs : List ℕ) → result < length bs → outcome bs ≡ refused 1 result }
    ensures sound { Sound }
    ensures complete { Complete }
    ensures unambiguous { Unambiguous }
    ensures grammar { Code4 }
    ensures limits { Limits }
    ensures worked { Worked }
{
    reading_stands();
    512
}

// Holds the laws of reading.
fn reading_stands()
    ensures most { (bs : List ℕ) (q : Path) → outcome bs ≡ accepted q → length bs ≤ 512 }
    ensures long { (bs : List ℕ) → 512 < length bs → outcome bs ≡ refused 1 512 }
    ensures sound { Sound }
    ensures complete { Complete }
    ensures unambiguous { Unambiguous }
    ensures grammar { Code4 }
    ensures limits { Limits }
    ensures worked { Worked }
{}
