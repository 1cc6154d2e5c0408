// What is proved of feed files.
ghost use Rattle.feedfile.specs.Claims.{ReadingTells, FileShows};

// Holds the laws of feed files.
pub(crate) fn laws_stand()
    ensures tells { ReadingTells }
    ensures shows { FileShows }
{}
