// How deep brackets, `not` and grouping stand in a query.
ghost use Rattle.std.specs.Prelude.{◌≡◌, ℕ, List, []};
ghost use Rattle.grammar.specs.Syntax.{Path};
ghost use Rattle.grammar.specs.Tokens.{tokens_at};
ghost use Rattle.grammar.specs.Grammar.{IsPath};
ghost use Rattle.grammar.specs.Machine.{outcome, accepted};
ghost use Rattle.grammar.specs.Claims.{Wider, OneQuery};

// The most levels of brackets, `not` and grouping. Its contract also says of the grammar that levels are a bound and
// that no tokens are of two queries, however many levels there are.
pub fn most_levels() -> u8
    ensures most { (bs : List ℕ) (q : Path) → outcome bs ≡ accepted q → IsPath result (tokens_at bs 0) q [] }
    ensures wider { Wider }
    ensures one { OneQuery }
{
    levels_stand();
    12
}

// Holds the laws of levels.
fn levels_stand()
    ensures most { (bs : List ℕ) (q : Path) → outcome bs ≡ accepted q → IsPath 12 (tokens_at bs 0) q [] }
    ensures wider { Wider }
    ensures one { OneQuery }
{}
