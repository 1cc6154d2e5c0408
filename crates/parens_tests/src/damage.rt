// Each kind of damage is refused, and leaves the tree that was there.
use crate::example::{BITS, COUNT, DIRECTORY, LABELS, code};
use parens::paren_tree::ParenTree;
use scan::block::Block;
use scan::directory::fill;
use std::process::Abort;
use std::test::*;
use tree::Tree;

// The code of a load into a tree that has the example, which a refusal leaves.
fn refused<'x>(
    rt: &impl Abort,
    bits: &'x [u8],
    labels: &'x [u16],
    directory: &'x [Block],
    count: usize,
    want: u8,
) -> Result<(), Fail> {
    let mut t = ParenTree::lone();
    assert_eq!(rt; code(t.load(&BITS, &LABELS, &DIRECTORY, COUNT)), 0);
    assert_eq!(rt; code(t.load(bits, labels, directory, count)), want);
    assert_eq!(rt; t.count(), 9);
    assert_eq!(rt; (t.label(8), t.size(1), t.next_sibling(2)), (4, 8, Some(5)));
    Ok(())
}

#[test]
fn too_small(rt: HostRuntime) -> Result<(), Fail> {
    refused(&rt, &BITS[0..2], &LABELS, &DIRECTORY, COUNT, 11)?;
    refused(&rt, &BITS, &LABELS[0..8], &DIRECTORY, COUNT, 11)?;
    refused(&rt, &BITS, &LABELS, &DIRECTORY[0..0], COUNT, 11)?;
    refused(&rt, &BITS, &LABELS, &DIRECTORY, usize::MAX, 11)
}

#[test]
fn nesting(rt: HostRuntime) -> Result<(), Fail> {
    // a closing first, one opening too many, one too few, two roots
    refused(&rt, &[0x78, 0xE2, 0x00], &LABELS, &DIRECTORY, COUNT, 14)?;
    refused(&rt, &[0xF8, 0xE2, 0x40], &LABELS, &DIRECTORY, COUNT, 14)?;
    refused(&rt, &[0xF8, 0xE0, 0x00], &LABELS, &DIRECTORY, COUNT, 14)?;
    refused(&rt, &[0xA0], &[0, 2], &DIRECTORY, 2, 14)
}

#[test]
fn spare_bits(rt: HostRuntime) -> Result<(), Fail> {
    refused(&rt, &[0xF8, 0xE2, 0x01], &LABELS, &DIRECTORY, COUNT, 14)?;
    refused(&rt, &[0xF8, 0xE2, 0x20], &LABELS, &DIRECTORY, COUNT, 14)
}

#[test]
fn labels(rt: HostRuntime) -> Result<(), Fail> {
    // a root with another label, another node with that of the root, past the last element, a text with a child
    refused(
        &rt,
        &BITS,
        &[2, 2, 3, 4, 1, 3, 3, 4, 4],
        &DIRECTORY,
        COUNT,
        14,
    )?;
    refused(
        &rt,
        &BITS,
        &[0, 2, 3, 4, 1, 0, 3, 4, 4],
        &DIRECTORY,
        COUNT,
        14,
    )?;
    refused(
        &rt,
        &BITS,
        &[0, 2, 3, 4, 1, 3, 3, 4, 514],
        &DIRECTORY,
        COUNT,
        14,
    )?;
    refused(
        &rt,
        &BITS,
        &[0, 2, 3, 1, 4, 3, 3, 4, 4],
        &DIRECTORY,
        COUNT,
        14,
    )
}

#[test]
fn directories(rt: HostRuntime) -> Result<(), Fail> {
    refused(
        &rt,
        &BITS,
        &LABELS,
        &[Block {
            before: 1,
            least: 0,
        }],
        COUNT,
        14,
    )?;
    refused(
        &rt,
        &BITS,
        &LABELS,
        &[Block {
            before: 0,
            least: 1,
        }],
        COUNT,
        14,
    )
}

#[test]
fn counts(rt: HostRuntime) -> Result<(), Fail> {
    refused(&rt, &BITS, &LABELS, &DIRECTORY, 0, 14)?;
    refused(&rt, &BITS, &LABELS, &DIRECTORY, 8, 14)?;
    refused(
        &rt,
        &BITS,
        &[0, 2, 3, 4, 1, 3, 3, 4, 4, 4],
        &DIRECTORY,
        10,
        14,
    )
}

#[test]
fn too_many(rt: HostRuntime) -> Result<(), Fail> {
    let bits = vec![in rt.alloc(); 0xFFu8; 2049]?;
    let labels = vec![in rt.alloc(); 2u16; 8193]?;
    let mut directory = vec![in rt.alloc(); Block {
        before: 7,
        least: -7
    }; 65]?;
    refused(
        &rt,
        bits.as_slice(),
        labels.as_slice(),
        directory.as_slice(),
        8193,
        14,
    )?;
    assert_eq!(rt;
        code(fill(bits.as_slice(), 8193, directory.as_mut_slice())),
        14
    );
    assert!(rt; directory.len() == 65);
    assert_eq!(rt; (directory[0].before, directory[0].least), (7, -7));
    Ok(())
}

// Below one row a block, or below the bytes of the parentheses, filling changes nothing.
#[test]
fn fill_too_small(rt: HostRuntime) -> Result<(), Fail> {
    let mut one = [Block {
        before: 7,
        least: -7,
    }];
    assert_eq!(rt; code(fill(&[0; 33], 129, &mut one)), 11);
    assert_eq!(rt; (one[0].before, one[0].least), (7, -7));
    assert_eq!(rt; code(fill(&[0; 2], 9, &mut one)), 11);
    assert_eq!(rt; (one[0].before, one[0].least), (7, -7));
    Ok(())
}
