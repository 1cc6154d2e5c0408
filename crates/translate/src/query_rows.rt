// The rows of a query, with the store that gives its names their labels. They are lent beside the writer: held in it, each
// method would owe that they stay.
use names::slot::Slot;
use query::parsed::Query;

#[derive(Clone, Copy)]
pub(crate) struct Rows<'a> {
    pub(crate) query: &'a Query,
    pub(crate) names: &'a [Slot],
}
