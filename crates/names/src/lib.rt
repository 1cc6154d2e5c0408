// Names of elements: what a name is, the slot that holds one, and the name store, a lent slice of slots.
// Slot i of a store names label i + 2; slots past the 512th do not count.
#![tactic(auto)]

mod laws;
pub mod slot;
pub mod store;
