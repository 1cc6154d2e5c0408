// What queries select in a tree, and the programs that mark it.
#![tactic(auto)]

ghost use Rattle.std.specs.Prelude.{◌≤◌, length};
ghost use Rattle.grammar.specs.Syntax.{Path};
ghost use Rattle.selection.specs.Selects.{Store};
ghost use Rattle.selection.specs.Limits.{Limited};
ghost use Rattle.selection.specs.Translate.{translate};
ghost use Rattle.selection.specs.Claims.{MarksSelected, Translates, AcceptedLimited, TranslationsFit};

// The most deciding states that a query's program has. Its contract also has what is proved of such programs: they mark
// exactly the nodes that their queries select, by any decisions that are right, an accepted query keeps the limits, and
// within these its program keeps the rules for programs.
pub fn most_states() -> usize
    ensures most { (names : Store) (q : Path) → Limited q → length (translate names q).deciding ≤ result }
    ensures selected { MarksSelected }
    ensures means { Translates }
    ensures limited { AcceptedLimited }
    ensures fits { TranslationsFit }
{
    laws_stand();
    40
}

// Holds the laws of translated queries.
fn laws_stand()
    ensures most { (names : Store) (q : Path) → Limited q → length (translate names q).deciding ≤ 40 }
    ensures selected { MarksSelected }
    ensures means { Translates }
    ensures limited { AcceptedLimited }
    ensures fits { TranslationsFit }
{}
