// What is proved of feeds.
ghost use Rattle.growth.specs.Claims.{FeedsShow, NamesStand};

// Holds the laws of feeds.
pub(crate) fn laws_stand()
    ensures feeds { FeedsShow }
    ensures names { NamesStand }
{}
