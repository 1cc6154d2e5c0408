// The example tree 2(3(4(text)) 3(3(4)) 4) below its root, with its buffers written out.
use parens::lengths::lengths_for;
use parens::paren_tree::ParenTree;
use parens::places::Places;
use scan::block::Block;
use scan::directory::fill;
use std::test::*;
use tree::Tree;
use tree::fault::Fault;

pub(crate) const COUNT: usize = 9;

pub(crate) const BITS: [u8; 3] = [0xF8, 0xE2, 0x00];

pub(crate) const LABELS: [u16; 9] = [0, 2, 3, 4, 1, 3, 3, 4, 4];

pub(crate) const DIRECTORY: [Block; 1] = [Block {
    before: 0,
    least: 0,
}];

// The number of a refusal, 0 where there is none.
pub(crate) fn code(answer: Result<(), Fault>) -> u8 {
    match answer {
        Ok(()) => 0,
        Err(fault) => fault.code(),
    }
}

#[test]
fn tables(rt: HostRuntime) -> Result<(), Fail> {
    assert_eq!(rt; (excess::total(0x0F), excess::least(0x0F)), (0, -4));
    assert_eq!(rt; (excess::total(0x00), excess::least(0x00)), (-8, -8));
    assert_eq!(rt; (excess::total(0xFF), excess::least(0xFF)), (8, 1));
    assert_eq!(rt; (excess::total(0x80), excess::least(0x80)), (-6, -6));
    assert_eq!(rt; (excess::total(0xF0), excess::least(0xF0)), (0, 0));
    assert_eq!(rt; (excess::total(0xAA), excess::least(0xAA)), (0, 0));
    assert_eq!(rt; (excess::total(0x55), excess::least(0x55)), (0, -1));
    Ok(())
}

#[test]
fn answers(rt: HostRuntime) -> Result<(), Fail> {
    let mut t = ParenTree::lone();
    assert_eq!(rt; code(t.load(&BITS, &LABELS, &DIRECTORY, COUNT)), 0);
    assert_eq!(rt; t.count(), 9);
    let labels = [0, 2, 3, 4, 1, 3, 3, 4, 4, 65535, 65535];
    let firsts = [
        Some(1),
        Some(2),
        Some(3),
        Some(4),
        None,
        Some(6),
        Some(7),
        None,
        None,
        None,
        None,
    ];
    let nexts = [
        None,
        None,
        Some(5),
        None,
        None,
        Some(8),
        None,
        None,
        None,
        None,
        None,
    ];
    let sizes = [9, 8, 3, 2, 1, 3, 2, 1, 1, 0, 0];
    for v in 0..11 {
        assert_eq!(rt; t.label(v), labels[v]);
        assert_eq!(rt; t.first_child(v), firsts[v]);
        assert_eq!(rt; t.next_sibling(v), nexts[v]);
        assert_eq!(rt; t.size(v), sizes[v]);
    }
    assert_eq!(rt; t.label(usize::MAX), 65535);
    assert_eq!(rt; t.first_child(usize::MAX), None);
    assert_eq!(rt; t.next_sibling(usize::MAX), None);
    assert_eq!(rt; t.size(usize::MAX), 0);
    Ok(())
}

// 1 1 1 1 1 0 0 0 1 1 1 0 0 0 1 0 0 0
#[test]
fn places(rt: HostRuntime) -> Result<(), Fail> {
    let mut t = ParenTree::lone();
    assert_eq!(rt; code(t.load(&BITS, &LABELS, &DIRECTORY, COUNT)), 0);
    let want = [
        (0, 17),
        (1, 16),
        (2, 7),
        (3, 6),
        (4, 5),
        (8, 13),
        (9, 12),
        (10, 11),
        (14, 15),
    ];
    for (v, (opening, closing)) in want.into_iter().enumerate() {
        assert_eq!(rt; t.places(v), Some(Places { opening, closing }));
    }
    assert!(rt; t.places(9).is_none());
    Ok(())
}

#[test]
fn lone_root(rt: HostRuntime) -> Result<(), Fail> {
    let t = ParenTree::lone();
    assert_eq!(rt; t.count(), 1);
    assert_eq!(rt; (t.label(0), t.label(1)), (0, 65535));
    assert_eq!(rt; (t.size(0), t.size(1)), (1, 0));
    assert_eq!(rt; (t.first_child(0), t.next_sibling(0)), (None, None));
    Ok(())
}

// Rows of the directory past those that are written stay.
#[test]
fn directory(rt: HostRuntime) -> Result<(), Fail> {
    let mut rows = [
        Block {
            before: 7,
            least: -7,
        },
        Block {
            before: 8,
            least: -8,
        },
    ];
    assert_eq!(rt; code(fill(&BITS, COUNT, &mut rows)), 0);
    assert_eq!(rt; (rows[0].before, rows[0].least), (0, 0));
    assert_eq!(rt; (rows[1].before, rows[1].least), (8, -8));
    Ok(())
}

#[test]
fn lengths(rt: HostRuntime) -> Result<(), Fail> {
    let nine = lengths_for(9);
    assert_eq!(rt; (nine.bytes, nine.labels, nine.blocks), (3, 9, 1));
    let most = lengths_for(8192);
    assert_eq!(rt; (most.bytes, most.labels, most.blocks), (2048, 8192, 64));
    let over = lengths_for(129);
    assert_eq!(rt; (over.bytes, over.labels, over.blocks), (33, 129, 2));
    Ok(())
}
