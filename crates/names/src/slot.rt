// Names in slots of 32 bytes: a name and then 00h bytes.
ghost use Rattle.std.specs.Prelude.{◌≡◌, drop};
ghost use Rattle.names.specs.Names.{begins, goes_on, blank, goes_on_all, is_name, padded, slot_of};
ghost use Rattle.names.specs.Claims.{NamesDecided, NamesApart};

use crate::laws::laws_stand;

// A name and then 00h bytes.
pub type Slot = [u8; 32];

// Whether a byte begins a name: an ASCII letter or an underscore.
pub fn begins(b: u8) -> bool
    ensures { result ≡ begins b }
{
    b.is_ascii_alphabetic() || b == b'_'
}

// Whether a byte goes on with a name: also a digit, a hyphen or a point.
pub fn goes_on(b: u8) -> bool
    ensures { result ≡ goes_on b }
{
    begins(b) || b.is_ascii_digit() || b == b'-' || b == b'.'
}

// Whether bytes go on with a name, and then are 0.
fn goes_on_all(bytes: &[u8]) -> bool
    ensures { result ≡ goes_on_all bytes.now }
{
    bytes.iter().skip_while(|b| goes_on(**b)).all(|b| *b == 0)
}

// Whether a slot holds a name. Its contract also has what the test means: a slot that passes is a name and then 00h bytes.
pub fn is_name(slot: &Slot) -> bool
    ensures tested { result ≡ is_name slot.now }
    ensures means { NamesDecided }
    ensures apart { NamesApart }
{
    laws_stand();
    begins(slot[0]) && goes_on_all(&slot[1..])
}

// The slot of a name; a name of more than 32 bytes has none.
pub fn slot_of(name: &[u8]) -> Option<Slot>
    ensures { result ≡ slot_of name.now }
{
    let mut slot = [0_u8; 32];
    // by a test: of a slot that is written through `get_mut` the proof knows the length alone
    if name.len() > slot.len() {
        return None;
    }
    slot[..name.len()].copy_from_slice(name);
    Some(slot)
}
