// What is proved of names and their store.
ghost use Rattle.names.specs.Claims.{NamesDecided, NamesApart, Lookup};

// Holds the laws of names.
pub(crate) fn laws_stand()
    ensures means { NamesDecided }
    ensures apart { NamesApart }
    ensures lookup { Lookup }
{}
