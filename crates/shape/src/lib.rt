// Parentheses and the rows of a tree: the laws that the code above rests on.
#![tactic(auto)]

ghost use Rattle.std.specs.Prelude.{◌≡◌, ◌*◌, List, length};
ghost use Rattle.rows.specs.Rows.{Row, Lawful, count_of};
ghost use Rattle.shape.specs.Shape.{parens};
ghost use Rattle.shape.specs.Laws.{RowsBack, TwoEach, ParensPlaced, RelationsShown, BitsPacked, ExamplePacked};

// The parentheses that a node has. Its contract also has what is proved of the parentheses of rows: rows come back from
// them, each node's pair stands where it should and shows its relations, and bytes hold the bits.
pub fn parens_per_node() -> usize
    ensures each { (rows : List Row) → Lawful rows → length (parens rows) ≡ result * count_of rows }
    ensures back { RowsBack }
    ensures placed { ParensPlaced }
    ensures relations { RelationsShown }
    ensures packed { BitsPacked }
    ensures example { ExamplePacked }
{
    laws_stand();
    2
}

// Holds the laws.
fn laws_stand()
    ensures back { RowsBack }
    ensures each { TwoEach }
    ensures placed { ParensPlaced }
    ensures relations { RelationsShown }
    ensures packed { BitsPacked }
    ensures example { ExamplePacked }
{}
