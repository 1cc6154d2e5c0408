// From a feed file to its tree.
#![tactic(auto)]

ghost use Rattle.std.specs.Prelude.{◌≡◌, length, Ok, Err};
ghost use Rattle.shape.specs.Bits.{bits_of};
ghost use Rattle.parens.specs.Trees.{rows_of};
ghost use Rattle.feedfile.specs.Files.{Grown};
ghost use Rattle.feedtree.specs.Answer.{read_new, tree_answer, bits_after, labels_after, store_after, directory_after, Leaves};

use feed::types::{Growing, Sealed};
use feedfile::command::FileFault;
use feedfile::read::read;
use names::slot::Slot;
use parens::paren_tree::ParenTree;
use scan::block::Block;

// Where a feed ended in its file, and how many names it has.
#[derive(Clone, Copy, Debug, PartialEq, Eq)]
pub struct FileEnd {
    // the place after SEAL
    pub place: usize,
    pub names: usize,
}

// Reads a feed file into lent memory and seals the feed: the sealed feed and the place after SEAL. The memory then holds the
// tree of exactly the nodes fed. Memory too small for the root is refused at place 0; a refusal keeps in memory what the
// commands before fed. Memory is lent at each call, each piece by itself, so no struct holds the pieces together.
pub fn read_sealed(
    file: &[u8],
    bits: &mut [u8],
    labels: &mut [u16],
    names: &mut [Slot],
    directory: &mut [Block],
) -> Result<(Sealed, usize), FileFault>
    ensures answers { elim result [ Ok x ↦ (tree_answer file.now (bits_of bits.old) labels.old names.old (length directory.old) ≡ Ok x.1) × (x.0.nodes ≡ (read_new file.now (bits_of bits.old) labels.old names.old).feed.nodes) × (x.0.names ≡ (read_new file.now (bits_of bits.old) labels.old names.old).feed.names) | Err f ↦ tree_answer file.now (bits_of bits.old) labels.old names.old (length directory.old) ≡ Err f ] }
    ensures parentheses { bits_of bits.new ≡ bits_after file.now (bits_of bits.old) labels.old names.old (length directory.old) }
    ensures labelled { labels.new ≡ labels_after file.now (bits_of bits.old) labels.old names.old }
    ensures stores { names.new ≡ store_after file.now (bits_of bits.old) labels.old names.old }
    ensures blocks { directory.new ≡ directory_after file.now (bits_of bits.old) labels.old names.old bits.new directory.old }
    ensures shows { elim result [ Ok x ↦ Leaves file.now x.1 x.0.nodes x.0.names bits.new labels.new names.new directory.new | Err _ ↦ Unit {0} ] }
{
    let feed = Growing::begin(bits, labels).map_err(|fault| FileFault::Refused {
        fault,
        place: 0,
    })?;
    read(feed, file, bits, labels, names, directory).map_err(|(feed, fault)| {
        let _ = feed.abandon();
        fault
    })
}

// Reads a feed file into lent memory, seals the feed and makes its tree, into a tree at hand (a refusal leaves the one there). The tree's rows are exactly
// the root and the nodes that the file's commands feed; it always loads. A refusal leaves the tree as it was.
pub fn read_tree<'a>(
    tree: &mut ParenTree<'a>,
    file: &[u8],
    bits: &'a mut [u8],
    labels: &'a mut [u16],
    names: &mut [Slot],
    directory: &'a mut [Block],
) -> Result<FileEnd, FileFault>
    ensures answers { elim result [ Ok x ↦ (tree_answer file.now (bits_of bits.old) labels.old names.old (length directory.old) ≡ Ok x.place) × (x.names ≡ (read_new file.now (bits_of bits.old) labels.old names.old).feed.names) | Err f ↦ tree_answer file.now (bits_of bits.old) labels.old names.old (length directory.old) ≡ Err f ] }
    ensures shows { elim result [ Ok x ↦ Grown file.now x.place (rows_of tree.new.bits.now tree.new.labels.now) x.names names.new | Err _ ↦ tree.new ≡ tree.old ] }
    ensures stores { names.new ≡ store_after file.now (bits_of bits.old) labels.old names.old }
{
    let (sealed, place) = read_sealed(file, bits, labels, names, directory)?;
    let names = sealed.names();
    // no `unwrap`: the feed in the error may not be let go
    if let Err((sealed, _)) = sealed.into_tree(tree, bits, labels, directory) {
        let _ = sealed.abandon();
        return unreachable();
    }
    Ok(FileEnd { place, names })
}
