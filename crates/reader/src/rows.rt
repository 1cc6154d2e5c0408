// Writing the rows of a table. They are no methods of Table, which stands in crate query: its rows are written here alone.
ghost use Rattle.std.specs.Prelude.{◌≡◌, slice_set};
ghost use Rattle.reader.specs.Rows.{index_in, Counts, Begun, Writes, Pushes, Negated};
ghost use Rattle.query.specs.Shown.{where_of};

use query::fault::Fault;
use query::table::{Predicate, Region, Shape, Step, Table};

// The number of the step that begins next.
pub(crate) fn next_index(table: &Table, region: Region) -> u8
    ensures { result ≡ index_in (where_of region) table.now }
{
    match region {
        Region::Outside => table.outside_count,
        Region::Inside => table.inside_count,
    }
}

// One step more, where there may be one more, which begins at the place.
fn counted(count: u8, most: u8, at: usize) -> Result<u8, Fault>
    ensures { Counts count most at result }
{
    if count >= most {
        return Err(Fault::Many(at));
    }
    Ok(count + 1)
}

// A step begins at the place; its row is written later.
pub(crate) fn begin(table: &mut Table, region: Region, at: usize) -> Result<(), Fault>
    ensures { Begun (where_of region) at result table.old table.new }
{
    match region {
        Region::Outside => table.outside_count = counted(table.outside_count, 16, at)?,
        Region::Inside => table.inside_count = counted(table.inside_count, 23, at)?,
    }
    Ok(())
}

// Writes a row, where there is such a row. By a test and an index, here and in negate: of rows that are written through `get_mut`
// the proof knows the length alone.
fn write(rows: &mut [Step], index: u8, step: Step)
    ensures { rows.new ≡ slice_set rows.old index step }
{
    if (index as usize) < rows.len() {
        rows[index as usize] = step;
    }
}

// Writes the row of a step, where there is such a row.
pub(crate) fn write_step(table: &mut Table, region: Region, index: u8, step: Step)
    ensures { Writes (where_of region) index step table.old table.new }
{
    match region {
        Region::Outside => write(&mut table.outside, index, step),
        Region::Inside => write(&mut table.inside, index, step),
    }
}

// One predicate more, where there is room, and its number. There is room: predicates are at most two for each of 23 steps, so no
// refusal is due here.
pub(crate) fn push(table: &mut Table, shape: Shape) -> u8
    ensures { Pushes (record { negations = 0; shape = shape }) result table.old table.new }
{
    let at = table.predicate_count;
    if at < 46 {
        table.predicates[at as usize] = Predicate {
            negations: 0,
            shape,
        };
        table.predicate_count = at + 1;
    }
    at
}

// One `not` more around a predicate.
pub(crate) fn negate(table: &mut Table, index: u8)
    ensures { Negated index table.old table.new }
{
    if index < 46 {
        let inner = &mut table.predicates[index as usize];
        inner.negations = inner.negations.saturating_add(1);
    }
}
