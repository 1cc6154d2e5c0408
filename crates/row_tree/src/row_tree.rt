// A tree over stored rows, which it borrows.
ghost use Rattle.std.specs.Prelude.{◌≡◌};
ghost use Rattle.rows.specs.Lawful.{IsLawful};
ghost use Rattle.stored.specs.Stored.{rows_of, stored_of};

use stored::row::StoredRow;

#[derive(Clone, Copy)]
pub struct RowTree<'a> {
    pub(crate) rows: &'a [StoredRow],
    ghost law: { IsLawful (rows_of rows.now) },
    ghost same: { stored_of (rows_of rows.now) ≡ rows.now },
}
