// The name store.
ghost use Rattle.std.specs.Prelude.{◌≡◌, take};
ghost use Rattle.std.specs.Str.{bytes_eq};
ghost use Rattle.names.specs.Store.{holds_name, label_from, label_of};
ghost use Rattle.names.specs.Claims.{Lookup};

use crate::laws::laws_stand;
use crate::slot::{Slot, slot_of};

// The label of a name that no slot holds, and that no node of a tree has: a program asks for it as for any other, so it is no
// Option.
pub const NO_LABEL: u16 = 0xffff;

// The names of a store; slots after these do not count.
pub const MOST_NAMES: usize = 512;

// Whether two slots are the same. Names mostly differ in their first bytes, so these are compared first: `==` at arrays looks at
// all 32.
#[inline(always)]
fn same_slot(a: &Slot, b: &Slot) -> bool
    ensures { result ≡ bytes_eq a.now b.now }
{
    b.starts_with(&a[..8]) && b.starts_with(&a[..16]) && a == b
}

// Whether a slot is among those of a store.
pub fn holds_name(store: &[Slot], slot: &Slot) -> bool
    ensures { result ≡ holds_name store.now slot.now }
{
    store.iter().any(|held| same_slot(held, slot))
}

// The label of the first of at most 512 slots that is the given one, or FFFFh.
fn label_from(store: &[Slot], slot: &Slot) -> u16
    ensures { result ≡ label_from 2 (take 512 store.now) slot.now }
{
    store[..store.len().min(MOST_NAMES)]
        .iter()
        .position(|held| same_slot(held, slot))
        .map_or(NO_LABEL, |i| i as u16 + 2)
}

// The label of a name: that of the first of at most 512 slots that holds it, otherwise FFFFh. Its contract also has
// this as a law: Lookup.
pub fn label_of(store: &[Slot], name: &[u8]) -> u16
    ensures looked { result ≡ label_of store.now name.now }
    ensures lookup { Lookup }
{
    laws_stand();
    let Some(slot) = slot_of(name) else {
        return NO_LABEL;
    };
    label_from(store, &slot)
}
