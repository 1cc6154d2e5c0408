// Worked cases: texts of queries, with the nodes that they select in an example tree.
#![tactic(auto)]

ghost use Rattle.std.specs.Prelude.{◌≡◌, length};
ghost use Rattle.cases.specs.Example.{cases, Worked};

// The number of worked cases. Its contract also says that each holds: its text is read as a query that selects exactly
// the nodes listed, and a tally of its span counts those of the span.
pub fn worked() -> usize
    ensures count { result ≡ length cases }
    ensures each { Worked }
{
    laws_stand();
    12
}

// Holds the worked cases.
fn laws_stand()
    ensures { Worked }
{}
