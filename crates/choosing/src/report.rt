// The text of a selection: how many nodes, how many selected, the first and the last, and the first twelve.
ghost use Rattle.std.specs.Prelude.{◌≡◌, ◌++◌, IfOk, OnOk, string_bytes};
ghost use Rattle.tally.specs.Reaches.{reach, leading_of};
ghost use Rattle.choosing.specs.Printed.{counts_text, ends_text, numbers_text, report_text};

use std::alloc::{AllocError, Global};
use tally::count::Count;
use tally::extent::{Ends, Extent};
use tally::leading::LeadingTwelve;

// Adds `from A to B`.
fn add_ends(text: &mut String, extent: Extent) -> Result<(), AllocError>
    ensures { OnOk result (string_bytes text.new ≡ string_bytes text.old ++ ends_text (reach extent)) }
{
    match extent {
        None => text.push_str("from - to -\n"),
        Some(Ends { first, last }) => writeln!(text, "from {first} to {last}"),
    }
}

// Adds a line for each number.
fn add_numbers(text: &mut String, nodes: &[u16]) -> Result<(), AllocError>
    ensures { OnOk result (string_bytes text.new ≡ string_bytes text.old ++ numbers_text nodes.now) }
{
    for node in nodes {
        writeln!(text, "{node}")?;
    }
    Ok(())
}

// The whole text.
pub(crate) fn report(
    heap: Global,
    nodes: usize,
    selected: Count,
    extent: Extent,
    leading: LeadingTwelve,
) -> Result<String, AllocError>
    ensures { IfOk result (λ s. string_bytes s ≡ report_text nodes selected.count (reach extent) (leading_of leading).numbers (leading_of leading).more) }
{
    let selected = selected.count;
    let mut text = format!(in heap; "nodes {nodes}\nselected {selected}\n")?;
    add_ends(&mut text, extent)?;
    add_numbers(&mut text, leading.nodes())?;
    text.push_str(if leading.more() {
        "more\nend\n"
    } else {
        "end\n"
    })?;
    Ok(text)
}
