// Where a node's parentheses stand.
ghost use Rattle.std.specs.Prelude.{◌≡◌, ◌+◌, ◌*◌, ◌<◌, ◌≤◌, length, get_or, pos, Some};
ghost use Rattle.shape.specs.Bits.{bits_of, select, next_closing};
ghost use Rattle.scan.specs.Trees.{rows_of};
ghost use Rattle.parens.specs.Places.{places_of};
ghost use Rattle.parens.specs.Search.{Skips, Closes};

use crate::paren_tree::ParenTree;
use crate::places::Places;
use crate::search::{close_in_bits, close_in_bytes, open_in_bits, openings_in};
use std::ops::ControlFlow;

impl ParenTree<'_> {
    // The last block that has at most v openings before it.
    fn block_of(&self, v: usize) -> usize
        ensures within { result < length self.now.directory.now }
        ensures before { (get_or self.now.directory.now result (record { before = 0; least = pos 0 })).before ≤ v }
        ensures last { result + 1 < length self.now.directory.now → v < (get_or self.now.directory.now (result + 1) (record { before = 0; least = pos 0 })).before }
    {
        self.directory
            .partition_point(|block| block.before as usize <= v)
            - 1
    }

    // The place of node v's opening.
    pub(crate) fn opening(&self, v: usize) -> usize
        ensures { result ≡ select v (bits_of self.now.bits.now) }
    {
        let block = self.block_of(v);
        let mut left = v - self.directory[block].before as usize;
        let from = 32 * block;
        for (i, byte) in self.bits[from..].iter().enumerate() {
            let inside = openings_in(*byte);
            if left < inside {
                let at = 8 * (from + i);
                match open_in_bits(self.bits, at, at + 8, left) {
                    ControlFlow::Break(p) => return p,
                    ControlFlow::Continue(more) => left = more,
                }
            } else {
                left -= inside;
            }
        }
        8 * self.bits.len()
    }

    // The excess after block j, if another block follows and the excess stays 0 or more over it.
    fn skip(&self, j: usize, excess: usize) -> Option<usize>
        requires within { j < length self.now.directory.now }
        requires low { excess ≤ 256 * j }
        ensures { Skips (bits_of self.now.bits.now) (256 * j) 256 excess result }
    {
        let here = self.directory[j];
        let next = self.directory.get(j + 1)?;
        if (excess as i32) + (here.least as i32) < 0 {
            return None;
        }
        Some(excess + 2 * (next.before as usize - here.before as usize) - 256)
    }

    // Looks from the place `from` to the end for the closing that matches an opening just before it.
    fn close_from(&self, from: usize) -> ControlFlow<usize, usize>
        requires { from ≤ 8 * length self.now.bits.now }
        ensures { Closes (bits_of self.now.bits.now) from 0 (8 * length self.now.bits.now) result }
    {
        let bytes = self.bits.len();
        let byte = from.div_ceil(8);
        let block = byte.div_ceil(32);
        let start = close_in_bits(self.bits, from, 8 * byte, 0)?;
        let mut excess = close_in_bytes(self.bits, byte, bytes.min(32 * block), start)?;
        // by number: a block is passed over by its entry and the next one, or searched from its byte 32 · j on
        for j in block..self.directory.len() {
            if let Some(after) = self.skip(j, excess) {
                excess = after;
            } else {
                excess = close_in_bytes(self.bits, 32 * j, bytes.min(32 * j + 32), excess)?;
            }
        }
        ControlFlow::Continue(excess)
    }

    // The place of the closing that matches an opening just before the place `from`.
    fn closing(&self, from: usize) -> usize
        requires { from ≤ 8 * length self.now.bits.now }
        ensures { result ≡ next_closing (bits_of self.now.bits.now) from 0 }
    {
        match self.close_from(from) {
            ControlFlow::Break(p) => p,
            ControlFlow::Continue(_) => 8 * self.bits.len(),
        }
    }

    // The places of the parentheses of a node.
    pub(crate) fn pair(&self, v: usize) -> Places
        requires { v < self.now.count }
        ensures opened { result.opening ≡ select v (bits_of self.now.bits.now) }
        ensures closed { result.closing ≡ next_closing (bits_of self.now.bits.now) (result.opening + 1) 0 }
        ensures placed { Some result ≡ places_of (rows_of self.now.bits.now self.now.labels.now) v }
    {
        let opening = self.opening(v);
        let closing = self.closing(opening + 1);
        Places { opening, closing }
    }

    // The places of the parentheses of node v: its closing stands 2 · size - 1 after its opening. None for a number that is no node.
    pub fn places(&self, v: usize) -> Option<Places>
        ensures { result ≡ places_of (rows_of self.now.bits.now self.now.labels.now) v }
    {
        // no `then`: of what a closure `|| self.pair(v)` gives back the proof of the whole found nothing
        if v < self.count {
            Some(self.pair(v))
        } else {
            None
        }
    }
}
