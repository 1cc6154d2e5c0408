// A query with the text that it was read from.
ghost use Rattle.std.specs.Prelude.{◌≡◌, true, take};
ghost use Rattle.query.specs.Reads.{accepts_text, path_in};
ghost use Rattle.query.specs.Shown.{shown_by};

use super::table::Table;

// The first `len` bytes of `text` are a text of the grammar within the limits, and the table shows its query.
// The text stands in 512 bytes, with its length, since a query is copied and nothing is allocated.
#[derive(Clone, Copy)]
pub struct Query {
    pub text: [u8; 512],
    pub len: u16,
    pub table: Table,
    ghost reads: { accepts_text (take len text) ≡ true },
    ghost shown: { shown_by (take len text) table (path_in (take len text)) ≡ true },
}
