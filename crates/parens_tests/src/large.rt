// Trees of up to 8,192 nodes, with every answer of every node.
use crate::example::code;
use crate::shapes::{Shape, written};
use parens::paren_tree::ParenTree;
use parens::places::Places;
use row_tree::row_tree::RowTree;
use row_tree::write::write_rows;
use std::alloc::Global;
use std::process::Abort;
use std::test::*;
use stored::row::StoredRow;
use tree::Tree;

fn answers(rt: &impl Abort, t: &ParenTree<'_>, shape: Shape, n: usize) -> Result<(), Fail> {
    assert_eq!(rt; t.count(), n);
    for v in 0..n {
        let node = shape.node(n, v);
        assert_eq!(rt; t.label(v), node.label);
        assert_eq!(rt; t.first_child(v), node.first);
        assert_eq!(rt; t.next_sibling(v), node.next);
        assert_eq!(rt; t.size(v), node.size);
        let opening = v.wrapping_mul(2).wrapping_sub(node.depth);
        let closing = opening
            .wrapping_add(node.size.wrapping_mul(2))
            .wrapping_sub(1);
        assert_eq!(rt; t.places(v), Some(Places { opening, closing }));
    }
    assert_eq!(rt; t.label(n), 65535);
    assert_eq!(rt; (t.first_child(n), t.next_sibling(n)), (None, None));
    assert_eq!(rt; t.size(n), 0);
    Ok(())
}

fn loads(rt: &impl Abort, heap: Global, shape: Shape, n: usize) -> Result<(), Fail> {
    let b = written(rt, heap, shape, n)?;
    let mut t = ParenTree::lone();
    assert_eq!(rt;
        code(t.load(
            b.bits.as_slice(),
            b.labels.as_slice(),
            b.directory.as_slice(),
            n,
        )),
        0
    );
    answers(rt, &t, shape, n)?;
    same_as_rows(rt, heap, &t)
}

// Written as stored rows, the tree loads and answers the same at every node and at the number after the last.
fn same_as_rows<T: Tree>(rt: &impl Abort, heap: Global, t: &T) -> Result<(), Fail> {
    let n = t.count();
    let mut rows = vec![in heap; StoredRow {
        label: 0,
        distance: 0,
        size: 0
    }; n]?;
    assert!(rt; write_rows(t, rows.as_mut_slice()).is_ok());
    let mut other = RowTree::lone();
    assert!(rt; other.load(rows.as_slice()).is_ok());
    assert_eq!(rt; other.count(), n);
    for v in 0..n.saturating_add(1) {
        assert_eq!(rt; other.label(v), t.label(v));
        assert_eq!(rt; other.first_child(v), t.first_child(v));
        assert_eq!(rt; other.next_sibling(v), t.next_sibling(v));
        assert_eq!(rt; other.size(v), t.size(v));
    }
    Ok(())
}

#[test]
fn chain(rt: HostRuntime) -> Result<(), Fail> {
    loads(&rt, rt.alloc(), Shape::Chain, 8192)
}

#[test]
fn flat(rt: HostRuntime) -> Result<(), Fail> {
    loads(&rt, rt.alloc(), Shape::Flat, 8192)
}

#[test]
fn comb(rt: HostRuntime) -> Result<(), Fail> {
    loads(&rt, rt.alloc(), Shape::Comb, 8192)
}

#[test]
fn binary(rt: HostRuntime) -> Result<(), Fail> {
    loads(&rt, rt.alloc(), Shape::Binary, 8191)
}

// Sizes about the ends of a byte and of a block.
#[test]
fn small(rt: HostRuntime) -> Result<(), Fail> {
    for n in 1..20 {
        loads(&rt, rt.alloc(), Shape::Chain, n)?;
        loads(&rt, rt.alloc(), Shape::Flat, n)?;
        loads(&rt, rt.alloc(), Shape::Comb, n)?;
    }
    for n in 120..140 {
        loads(&rt, rt.alloc(), Shape::Chain, n)?;
        loads(&rt, rt.alloc(), Shape::Flat, n)?;
        loads(&rt, rt.alloc(), Shape::Comb, n)?;
    }
    loads(&rt, rt.alloc(), Shape::Binary, 127)
}

// A chain: 32 blocks of openings, then 32 of closings. A flat tree: the root, then a pair a node.
#[test]
fn directories(rt: HostRuntime) -> Result<(), Fail> {
    let chain = written(&rt, rt.alloc(), Shape::Chain, 8192)?;
    let flat = written(&rt, rt.alloc(), Shape::Flat, 8192)?;
    assert!(rt; chain.directory.len() == 65 && flat.directory.len() == 65);
    for j in 0..32 {
        assert_eq!(rt;
            (chain.directory[j].before as usize, chain.directory[j].least),
            (256 * j, 1)
        );
        assert_eq!(rt;
            (
                chain.directory[j + 32].before,
                chain.directory[j + 32].least,
            ),
            (8192, -256)
        );
    }
    assert_eq!(rt; (flat.directory[0].before, flat.directory[0].least), (0, 1));
    for j in 1..63 {
        assert_eq!(rt;
            (flat.directory[j].before as usize, flat.directory[j].least),
            (128 * j + 1, -1)
        );
    }
    assert_eq!(rt;
        (flat.directory[63].before, flat.directory[63].least),
        (8065, -2)
    );
    Ok(())
}
