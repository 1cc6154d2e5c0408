// The short spelling of a query.
ghost use Rattle.std.specs.Prelude.{◌≡◌, ℕ, ◌≤◌, List, length};
ghost use Rattle.grammar.specs.Syntax.{Path};
ghost use Rattle.grammar.specs.Machine.{outcome, accepted};
ghost use Rattle.grammar.specs.Spelling.{spell};
ghost use Rattle.grammar.specs.Claims.{ReadsBack, Shortest};

// The most bytes of a short spelling. Its contract also has what is proved of the spelling: it is read as its query,
// and no text of the query is shorter.
pub fn most_spelling() -> usize
    ensures value { result ≡ 512 }
    ensures most { (bs : List ℕ) (q : Path) → outcome bs ≡ accepted q → length (spell q) ≤ result }
    ensures back { ReadsBack }
    ensures shortest { Shortest }
{
    spelling_stands();
    512
}

// Holds the laws of the spelling.
fn spelling_stands()
    ensures most { (bs : List ℕ) (q : Path) → outcome bs ≡ accepted q → length (spell q) ≤ 512 }
    ensures back { ReadsBack }
    ensures shortest { Shortest }
{}
