// The tree of a sealed feed.
ghost use Rattle.std.specs.Prelude.{◌≡◌, ◌*◌, take, Ok, Err};
ghost use Rattle.scan.specs.Directory.{blocks, bytes};
ghost use Rattle.parens.specs.Loading.{Loads};
ghost use Rattle.growth.specs.Claims.{FeedsShow};

use crate::laws::laws_stand;
use crate::types::Sealed;
use parens::paren_tree::ParenTree;
use scan::block::Block;
use tree::fault::Fault;

impl Sealed {
    // A sealed feed takes no element: begin another feed. What this requires is true of no feed, since each has its root.
    pub fn open_element(&self)
        requires begin_another_feed { self.now.nodes ≡ 0 }
    {}

    // The number of names in the name store.
    pub fn names(&self) -> usize
        ensures { result ≡ self.now.names }
    {
        self.names
    }

    // Gives a feed up: the number of its nodes.
    pub fn abandon(self) -> usize
        ensures { result ≡ self.nodes }
    {
        let count = self.nodes;
        let Sealed { nodes: _, names: _ } = self;
        count
    }

    // Makes the tree from the memory that was fed, into a tree at hand (a refusal leaves the one there), and is used up; memory of no tree gives the feed back.
    pub fn into_tree<'a>(
        self,
        tree: &mut ParenTree<'a>,
        bits: &'a [u8],
        labels: &'a [u16],
        directory: &'a [Block],
    ) -> Result<(), (Sealed, Fault)>
        ensures answers { elim result [ Ok _ ↦ Loads bits.now labels.now directory.now self.nodes (Ok tt) | Err x ↦ Loads bits.now labels.now directory.now self.nodes (Err x.1) × (x.0 ≡ self) ] }
        ensures leaves { elim result [ Ok _ ↦ (tree.new.bits.now ≡ take (bytes self.nodes) bits.now) × (tree.new.labels.now ≡ take self.nodes labels.now) × (tree.new.directory.now ≡ take (blocks (2 * self.nodes)) directory.now) × (tree.new.count ≡ self.nodes) | Err _ ↦ tree.new ≡ tree.old ] }
        ensures feeds { FeedsShow }
    {
        laws_stand();
        // no `map_err`, since both arms move the feed
        match tree.load(bits, labels, directory, self.nodes) {
            Ok(()) => {
                let Sealed { nodes: _, names: _ } = self;
                Ok(())
            }
            Err(f) => Err((self, f)),
        }
    }
}
