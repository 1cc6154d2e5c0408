// Rows of a tree: what makes them lawful, and the answers to the questions that a tree is asked.
#![tactic(auto)]

ghost use Rattle.std.specs.Prelude.{◌≤◌, List};
ghost use Rattle.rows.specs.Rows.{Row, Lawful, count_of};
ghost use Rattle.rows.specs.Claims.{LawfulDecided, Questions};
ghost use Rattle.rows.specs.Excerpts.{Excerpts};

// The most nodes that a tree has. Its contract also has what is proved of rows: the test of rows decides whether they
// are lawful, the answers to the questions are the nodes so related, and an excerpt is the tree of a node's subtree.
pub fn most_nodes() -> usize
    ensures most { (rows : List Row) → Lawful rows → count_of rows ≤ result }
    ensures decided { LawfulDecided }
    ensures answered { Questions }
    ensures excerpted { Excerpts }
{
    laws_stand();
    8192
}

// Holds the laws of rows.
fn laws_stand()
    ensures decided { LawfulDecided }
    ensures answered { Questions }
    ensures excerpted { Excerpts }
{}
