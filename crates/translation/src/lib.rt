// Translations of queries: what they are, and the program that the rows of a query say.
#![tactic(auto)]

ghost use Rattle.std.specs.Prelude.{ℕ, ◌≤◌, List, length};
ghost use Rattle.grammar.specs.Syntax.{Path};
ghost use Rattle.selection.specs.Selects.{Store};
ghost use Rattle.selection.specs.Limits.{Limited};
ghost use Rattle.translation.specs.Translation.{Translation};
ghost use Rattle.translation.specs.Claims.{SaysProgram, SomeTranslation};

// The most bytes of a translation. Its contract also has what is proved of translations: the rows of a query say its
// program, and every query within the limits has a translation.
pub fn most_bytes() -> usize
    ensures most { (names : Store) (q : Path) (bs : List ℕ) → Translation names q bs → length bs ≤ result }
    ensures said { SaysProgram }
    ensures some { SomeTranslation }
{
    laws_stand();
    2048
}

// Holds the laws of translations.
fn laws_stand()
    ensures most { (names : Store) (q : Path) (bs : List ℕ) → Translation names q bs → length bs ≤ 2048 }
    ensures said { SaysProgram }
    ensures some { SomeTranslation }
{}
