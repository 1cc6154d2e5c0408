// Whether buffers are those of a tree.
ghost use Rattle.std.specs.Prelude.{◌≡◌, ◌+◌, ◌*◌, ◌^◌, ◌<◌, ◌≤◌, Bool, ◌&&◌, length, Decides, nat_le};
ghost use Rattle.rows.specs.Lawful.{inner_label};
ghost use Rattle.shape.specs.Bits.{bits_of};
ghost use Rattle.shape.specs.Walk.{reach_of, walk_all};
ghost use Rattle.scan.specs.Directory.{blocks, bytes};
ghost use Rattle.scan.specs.Trees.{OfTree};

use crate::bits::opens;
use crate::block::Block;
use crate::directory::{blocks_for, bytes_for};
use crate::nesting::Nesting;

// Whether the buffers, as long as they are, are those of a tree of `count` nodes.
pub fn of_tree(bits: &[u8], labels: &[u16], directory: &[Block], count: usize) -> bool
    ensures { Decides result (OfTree bits.now labels.now directory.now count) }
{
    if count > 8192 || labels.len() != count || bits.len() != bytes_for(count) {
        return false;
    }
    if directory.len() != blocks_for(count) || !shape_holds(bits, labels) {
        return false;
    }
    Nesting { bits, count }.has_directory(directory)
}

// Parentheses and labels: the root, then rows that may follow each other, and spare closings.
fn shape_holds(bits: &[u8], labels: &[u16]) -> bool
    requires few { length labels.now ≤ 8192 }
    requires long { length bits.now ≤ 2048 }
    ensures { result ≡ walk_all (bits_of bits.now) labels.now }
{
    let [0, inner @ ..] = labels else {
        return false;
    };
    if !opens(bits, 0) {
        return false;
    }
    // nodes that are open, the deepest that the next may be, and the labels that are left
    let mut depth = 1;
    let mut deepest = 1;
    let mut left = inner;
    // by places: bits are no elements of a slice
    for p in 1..8 * bits.len() {
        if opens(bits, p) {
            let [label, rest @ ..] = left else {
                return false;
            };
            if !may_follow(depth, deepest, *label) {
                return false;
            }
            deepest = reach(depth, *label);
            depth += 1;
            left = rest;
        } else {
            depth = depth.saturating_sub(1);
        }
    }
    depth == 0 && left.is_empty()
}

// Whether a row of that depth and label may come next, below the root.
fn may_follow(depth: usize, deepest: usize, label: u16) -> bool
    ensures { result ≡ (nat_le 1 depth && nat_le depth deepest && inner_label label) }
{
    (1..=deepest).contains(&depth) && (1..=513).contains(&label)
}

// The deepest row that may follow one of that depth and label: none is below a text.
fn reach(depth: usize, label: u16) -> usize
    requires { depth ≤ 65536 }
    ensures { result ≡ reach_of depth label }
{
    if label == 1 { depth } else { depth + 1 }
}
