// Trees of a regular shape, with what each of their nodes should answer.
use scan::block::Block;
use scan::directory::fill;
use std::alloc::Global;
use std::process::Abort;
use std::test::*;

#[derive(Clone, Copy)]
pub(crate) enum Shape {
    // each node has one child
    Chain,
    // all nodes are children of the root, and texts
    Flat,
    // each node but the texts has a text and then the next node
    Comb,
    // each node has two children or none
    Binary,
}

// What a node answers.
#[derive(Clone, Copy)]
pub(crate) struct Node {
    pub(crate) depth: usize,
    pub(crate) label: u16,
    pub(crate) first: Option<usize>,
    pub(crate) next: Option<usize>,
    pub(crate) size: usize,
}

fn element(v: usize) -> u16 {
    if v == 0 { 0 } else { 2 + (v % 512) as u16 }
}

// v, if it is a node of n.
fn within(v: usize, n: usize) -> Option<usize> {
    (v < n).then_some(v)
}

impl Shape {
    // Node v of a tree of n nodes.
    pub(crate) fn node(self, n: usize, v: usize) -> Node {
        match self {
            Shape::Chain => chain(n, v),
            Shape::Flat => flat(n, v),
            Shape::Comb => comb(n, v),
            Shape::Binary => binary(n, v),
        }
    }
}

fn chain(n: usize, v: usize) -> Node {
    Node {
        depth: v,
        label: element(v),
        first: within(v.wrapping_add(1), n),
        next: None,
        size: n.saturating_sub(v),
    }
}

fn flat(n: usize, v: usize) -> Node {
    if v == 0 {
        return Node {
            depth: 0,
            label: 0,
            first: within(1, n),
            next: None,
            size: n,
        };
    }
    Node {
        depth: 1,
        label: 1,
        first: None,
        next: within(v.wrapping_add(1), n),
        size: 1,
    }
}

fn comb(n: usize, v: usize) -> Node {
    if v % 2 == 0 {
        return Node {
            depth: v / 2,
            label: element(v),
            first: within(v.wrapping_add(1), n),
            next: None,
            size: n.saturating_sub(v),
        };
    }
    Node {
        depth: v / 2 + 1,
        label: 1,
        first: None,
        next: within(v.wrapping_add(1), n),
        size: 1,
    }
}

// From the root down to node v: a subtree of s nodes has two of s / 2 below its own.
fn binary(n: usize, v: usize) -> Node {
    let mut at = 0usize;
    let mut size = n;
    let mut depth = 0usize;
    let mut left = false;
    for _ in 0..16 {
        if at != v && size > 1 {
            size /= 2;
            depth = depth.wrapping_add(1);
            left = v <= at.wrapping_add(size);
            at = at.wrapping_add(if left { 1 } else { size.wrapping_add(1) });
        }
    }
    Node {
        depth,
        label: element(v),
        first: if size > 1 {
            Some(v.wrapping_add(1))
        } else {
            None
        },
        next: if left {
            Some(v.wrapping_add(size))
        } else {
            None
        },
        size,
    }
}

// The buffers of a tree.
#[derive(Drop)]
pub(crate) struct Buffers {
    pub(crate) bits: Vec<u8>,
    pub(crate) labels: Vec<u16>,
    pub(crate) directory: Vec<Block>,
}

fn open_at(bits: &mut [u8], p: usize) {
    if p / 8 < bits.len() {
        bits[p / 8] |= 128 >> (p % 8);
    }
}

// Writes a tree of n nodes, node by node: the closings that are due, and an opening.
pub(crate) fn written(
    rt: &impl Abort,
    heap: Global,
    shape: Shape,
    n: usize,
) -> Result<Buffers, Fail> {
    let mut bits = vec![in heap; 0u8; n / 4 + 1]?;
    let mut labels = vec![in heap]?;
    let mut directory = vec![in heap; Block {
        before: 0,
        least: 0
    }; n / 128 + 1]?;
    let mut place = 0usize;
    let mut open = 0usize;
    for v in 0..n {
        let node = shape.node(n, v);
        place = place.wrapping_add(open.wrapping_sub(node.depth));
        open_at(bits.as_mut_slice(), place);
        place = place.wrapping_add(1);
        open = node.depth.wrapping_add(1);
        labels.push(node.label)?;
    }
    assert_eq!(rt;
        crate::example::code(fill(bits.as_slice(), n, directory.as_mut_slice())),
        0
    );
    Ok(Buffers {
        bits,
        labels,
        directory,
    })
}
