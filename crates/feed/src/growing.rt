// The commands of a growing feed.
#![tactic(auto, using(shape::proofs::Bytes::bits_length, std::proofs::lemmas::Bool::Decides::nat_tests))]

ghost use Rattle.std.specs.Prelude.{◌≡◌, ℕ, ◌+◌, ◌*◌, ◌<◌, ◌≤◌, true, false, List, [], length, Ok, Err};
ghost use Rattle.shape.specs.Bits.{bits_of};
ghost use Rattle.scan.specs.Directory.{bytes};
ghost use Rattle.scan.specs.Filling.{filled};
ghost use Rattle.growth.specs.Claims.{FeedsShow, NamesStand};
ghost use Rattle.growth.specs.Commands.{step_check, stepped, store_after};
ghost use Rattle.growth.specs.Steps.{Fed, room, begin_check, begun, open_check, opened, text_check, texted, shut_check, shut, seal_check, cleared, after, named};
ghost use Rattle.growth.specs.Store.{name_check, stored};
ghost use Rattle.feed.specs.Fed.{fed};

use crate::bit::{clear, write_bit};
use crate::laws::laws_stand;
use crate::types::{Growing, Sealed};
use growth::command::Command;
use growth::fault::Fault;
use names::slot::{Slot, is_name};
use names::store::{MOST_NAMES, holds_name};
use scan::block::Block;
use scan::directory::{blocks_for, bytes_for, fill};

// The nodes of a feed, the root too.
const MOST_NODES: usize = 8192;

impl Growing {
    // A new feed: the root is open.
    pub fn begin(bits: &mut [u8], labels: &mut [u16]) -> Result<Growing, Fault>
        ensures { elim result [ Ok g ↦ (begin_check (bits_of bits.old) labels.old ≡ Ok tt) × (fed g bits.new labels.new ≡ begun (bits_of bits.old) labels.old) | Err f ↦ (begin_check (bits_of bits.old) labels.old ≡ Err f) × (bits.new ≡ bits.old) × (labels.new ≡ labels.old) ] }
    {
        Growing::root_room(bits, labels)?;
        write_bit(bits, 0, true);
        labels[0] = 0;
        Ok(Growing {
            nodes: 1,
            written: 1,
            due: 1,
            names: 0,
        })
    }

    // Whether the root has its parentheses and its label.
    fn root_room(bits: &[u8], labels: &[u16]) -> Result<(), Fault>
        ensures { result ≡ begin_check (bits_of bits.now) labels.now }
    {
        if bits.is_empty() || labels.is_empty() {
            return Err(Fault::Memory);
        }
        Ok(())
    }

    // Whether a node more has its number, its parentheses and its label.
    fn room(&self, bits: &[u8], labels: &[u16]) -> Result<(), Fault>
        ensures { result ≡ room (fed self.now bits.now labels.now) }
    {
        if self.nodes >= MOST_NODES {
            return Err(Fault::Full);
        }
        // two more, rounded up; no `div_ceil`, which looks at the remainder too
        if (self.written + self.due + 9) / 8 > bits.len() || self.nodes >= labels.len() {
            return Err(Fault::Memory);
        }
        Ok(())
    }

    // Opens an element.
    pub fn open_element(
        &mut self,
        bits: &mut [u8],
        labels: &mut [u16],
        label: u16,
    ) -> Result<(), Fault>
        ensures answers { result ≡ open_check (fed self.old bits.old labels.old) label }
        ensures leaves { let before = fed self.old bits.old labels.old in fed self.new bits.new labels.new ≡ after (open_check before label) before (opened before label) }
    {
        if label < 2 || label as usize > self.names + 1 {
            return Err(Fault::Label);
        }
        self.room(bits, labels)?;
        write_bit(bits, self.written, true);
        labels[self.nodes] = label;
        self.nodes += 1;
        self.written += 1;
        self.due += 1;
        Ok(())
    }

    // Adds a text.
    pub fn text(&mut self, bits: &mut [u8], labels: &mut [u16]) -> Result<(), Fault>
        ensures answers { result ≡ text_check (fed self.old bits.old labels.old) }
        ensures leaves { let before = fed self.old bits.old labels.old in fed self.new bits.new labels.new ≡ after (text_check before) before (texted before) }
    {
        self.room(bits, labels)?;
        write_bit(bits, self.written, true);
        write_bit(bits, self.written + 1, false);
        labels[self.nodes] = 1;
        self.nodes += 1;
        self.written += 2;
        Ok(())
    }

    // Whether an element is open, and has its closing.
    fn may_shut(&self, bits: &[u8]) -> Result<(), Fault>
        ensures { result ≡ shut_check (fed self.now bits.now []) }
    {
        // rounded up; no `div_ceil`, which looks at the remainder too
        if (self.written + self.due + 7) / 8 > bits.len() {
            return Err(Fault::Memory);
        }
        if self.due < 2 {
            return Err(Fault::RootOnly);
        }
        Ok(())
    }

    // Closes the element that was opened last.
    pub fn shut(&mut self, bits: &mut [u8]) -> Result<(), Fault>
        ensures answers { (ls : List ℕ) → result ≡ shut_check (fed self.old bits.old ls) }
        ensures leaves { (ls : List ℕ) → let before = fed self.old bits.old ls in fed self.new bits.new ls ≡ after (shut_check before) before (shut before) }
    {
        self.may_shut(bits)?;
        write_bit(bits, self.written, false);
        self.written += 1;
        self.due -= 1;
        Ok(())
    }

    // Whether a slot holds a new name, and has its place in the store.
    fn may_name(&self, names: &[Slot], slot: &Slot) -> Result<(), Fault>
        ensures { result ≡ name_check self.now.names names.now slot.now }
    {
        let known = &names[..self.names.min(names.len())];
        if self.names >= MOST_NAMES || !is_name(slot) || holds_name(known, slot) {
            return Err(Fault::Slot);
        }
        if self.names >= names.len() {
            return Err(Fault::Memory);
        }
        Ok(())
    }

    // Adds a name to the store.
    pub fn name(&mut self, names: &mut [Slot], slot: &Slot) -> Result<(), Fault>
        ensures answers { result ≡ name_check self.old.names names.old slot.now }
        ensures leaves { names.new ≡ stored (name_check self.old.names names.old slot.now) self.old.names names.old slot.now }
        ensures counts { (bs ls : List ℕ) → fed self.new bs ls ≡ after (name_check self.old.names names.old slot.now) (fed self.old bs ls) (named (fed self.old bs ls)) }
        ensures names { NamesStand }
    {
        laws_stand();
        self.may_name(names, slot)?;
        names[self.names] = *slot;
        self.names += 1;
        Ok(())
    }

    // Whether only the root is open, and the parentheses and the directory have their memory.
    fn may_seal(&self, bits: &[u8], directory: &[Block]) -> Result<(), Fault>
        ensures { result ≡ seal_check (fed self.now bits.now []) (length directory.now) }
    {
        if bytes_for(self.nodes) > bits.len() || blocks_for(self.nodes) > directory.len() {
            return Err(Fault::Memory);
        }
        if self.due > 1 {
            return Err(Fault::StillOpen);
        }
        Ok(())
    }

    // Closes the root and fills the directory; a refusal gives the feed back and changes nothing.
    pub fn seal(self, bits: &mut [u8], directory: &mut [Block]) -> Result<Sealed, (Growing, Fault)>
        ensures answers { elim result [ Ok s ↦ ((ls : List ℕ) → seal_check (fed self bits.old ls) (length directory.old) ≡ Ok tt) × (s.nodes ≡ self.nodes) × (s.names ≡ self.names) | Err x ↦ ((ls : List ℕ) → seal_check (fed self bits.old ls) (length directory.old) ≡ Err x.1) × (x.0 ≡ self) ] }
        ensures parentheses { elim result [ Ok s ↦ bits_of bits.new ≡ cleared (bits_of bits.old) self.written (8 * bytes self.nodes) | Err x ↦ bits.new ≡ bits.old ] }
        ensures blocks { elim result [ Ok s ↦ directory.new ≡ filled bits.new self.nodes directory.old | Err x ↦ directory.new ≡ directory.old ] }
        ensures feeds { FeedsShow }
    {
        laws_stand();
        // no `map_err`, since the feed moves on either way
        if let Err(fault) = self.may_seal(bits, directory) {
            return Err((self, fault));
        }
        let Growing {
            nodes,
            written,
            due: _,
            names,
        } = self;
        clear(bits, written, 8 * bytes_for(nodes));
        // granted, since may_seal has asked for its memory
        let _ = fill(bits, nodes, directory);
        Ok(Sealed { nodes, names })
    }

    // Gives one of the commands to the feed.
    pub fn apply(
        &mut self,
        command: Command,
        bits: &mut [u8],
        labels: &mut [u16],
        names: &mut [Slot],
    ) -> Result<(), Fault>
        ensures answers { result ≡ step_check (fed self.old bits.old labels.old) names.old command }
        ensures leaves { let before = fed self.old bits.old labels.old in fed self.new bits.new labels.new ≡ after (step_check before names.old command) before (stepped before command) }
        ensures stores { names.new ≡ store_after (step_check (fed self.old bits.old labels.old) names.old command) self.old.names names.old command }
    {
        match command {
            Command::Open(label) => self.open_element(bits, labels, label),
            Command::Shut => self.shut(bits),
            Command::Text => self.text(bits, labels),
            Command::Name(slot) => self.name(names, &slot),
        }
    }

    // Gives a feed up: the number of its nodes. Each of the two feeds takes its own fields apart, so a trait for both would hold
    // these bodies too.
    pub fn abandon(self) -> usize
        ensures { result ≡ self.nodes }
    {
        let count = self.nodes;
        let Growing {
            nodes: _,
            written: _,
            due: _,
            names: _,
        } = self;
        count
    }

    // A growing feed makes no tree: seal it first. What this requires is true of no feed, since only its nodes are open.
    pub fn into_tree(self)
        requires seal_first { self.nodes < self.due }
    {
        let _ = self.abandon();
    }
}
