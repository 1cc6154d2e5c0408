// Reading a feed file.
ghost use Rattle.std.specs.Prelude.{◌≡◌, ◌<◌, length, Ok, Err};
ghost use Rattle.shape.specs.Bits.{bits_of};
ghost use Rattle.feed.specs.Fed.{fed};
ghost use Rattle.feedfile.specs.Claims.{ReadingTells, FileShows};
ghost use Rattle.feedfile.specs.Reading.{told, read_file, answer_of, bits_left, directory_left};

use crate::command::{FileCommand, FileFault};
use crate::decode::take_command;
use crate::laws::laws_stand;
use feed::types::{Growing, Sealed};
use names::slot::Slot;
use scan::block::Block;

// Feeds the commands of a file up to its SEAL, and gives the place of that. Memory is lent at each call, each piece by itself,
// so no struct holds the pieces together.
fn grow(
    feed: &mut Growing,
    file: &[u8],
    bits: &mut [u8],
    labels: &mut [u16],
    names: &mut [Slot],
) -> Result<usize, FileFault>
    ensures reads { told result (fed feed.new bits.new labels.new) names.new ≡ read_file file.now (fed feed.old bits.old labels.old) names.old }
    ensures inside { elim result [ Ok p ↦ p < length file.now | Err _ ↦ Unit {0} ] }
{
    // no iterator of commands: a refusal tells the place, and bytes that are no command end in another way than SEAL
    let mut rest = file;
    loop {
        let place = file.len() - rest.len();
        // no `ok_or`, which moves each command twice more
        let Some((item, after)) = take_command(rest) else {
            return Err(FileFault::Unknown { place });
        };
        let FileCommand::Feed(command) = item else {
            return Ok(place);
        };
        feed.apply(command, bits, labels, names)
            .map_err(|fault| FileFault::Refused { fault, place })?;
        rest = after;
    }
}

// Feeds the commands of a file and seals the feed at its SEAL: the sealed feed and the place after SEAL. A refusal gives the
// feed back as the commands before left it.
pub fn read(
    mut feed: Growing,
    file: &[u8],
    bits: &mut [u8],
    labels: &mut [u16],
    names: &mut [Slot],
    directory: &mut [Block],
) -> Result<(Sealed, usize), (Growing, FileFault)>
    ensures answers { elim result [ Ok x ↦ ((answer_of (read_file file.now (fed feed bits.old labels.old) names.old) (length directory.old)) ≡ Ok x.1) × (x.0.nodes ≡ (read_file file.now (fed feed bits.old labels.old) names.old).feed.nodes) × (x.0.names ≡ (read_file file.now (fed feed bits.old labels.old) names.old).feed.names) | Err x ↦ ((answer_of (read_file file.now (fed feed bits.old labels.old) names.old) (length directory.old)) ≡ Err x.1) × (fed x.0 bits.new labels.new ≡ (read_file file.now (fed feed bits.old labels.old) names.old).feed) ] }
    ensures parentheses { bits_of bits.new ≡ bits_left (answer_of (read_file file.now (fed feed bits.old labels.old) names.old) (length directory.old)) (read_file file.now (fed feed bits.old labels.old) names.old).feed }
    ensures labelled { labels.new ≡ (read_file file.now (fed feed bits.old labels.old) names.old).feed.labels }
    ensures stores { names.new ≡ (read_file file.now (fed feed bits.old labels.old) names.old).store }
    ensures blocks { directory.new ≡ directory_left (answer_of (read_file file.now (fed feed bits.old labels.old) names.old) (length directory.old)) (read_file file.now (fed feed bits.old labels.old) names.old).feed bits.new directory.old }
    ensures tells { ReadingTells }
    ensures shows { FileShows }
{
    laws_stand();
    // no `map_err`, since both arms move the feed
    match grow(&mut feed, file, bits, labels, names) {
        Err(fault) => Err((feed, fault)),
        Ok(place) => match feed.seal(bits, directory) {
            Ok(sealed) => Ok((sealed, place + 1)),
            Err((feed, fault)) => Err((feed, FileFault::Refused { fault, place })),
        },
    }
}
