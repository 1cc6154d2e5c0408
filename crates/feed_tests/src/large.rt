// Feeds of 8,192 nodes.
use crate::example::{OLD, outcome, refusal};
use feedtree::read_tree;
use parens::paren_tree::ParenTree;
use std::test::Fail;
use tree::Tree;

fn texts(rt: &HostRuntime, n: usize) -> Result<Vec<u8>, Fail> {
    let mut file = vec![in rt.alloc()]?;
    for _ in 0..n {
        file.push(0x03_u8)?;
    }
    file.push(0x0f)?;
    Ok(file)
}

// The root and 8,191 texts are the most; one more is refused at its place.
#[test]
fn most_nodes(rt: HostRuntime) -> Result<(), Fail> {
    let mut bits = vec![in rt.alloc(); 0xff_u8; 2050]?;
    let mut labels = vec![in rt.alloc(); 9_u16; 8200]?;
    let mut names = [[0_u8; 32]; 0];
    let mut directory = vec![in rt.alloc(); OLD; 64]?;
    let file = texts(&rt, 8191)?;
    assert_eq!(rt;
        outcome(
            file.as_slice(),
            bits.as_mut_slice(),
            labels.as_mut_slice(),
            &mut names,
            directory.as_mut_slice(),
        ),
        (0, 8192)
    );
    let longer = texts(&rt, 8192)?;
    assert_eq!(rt;
        outcome(
            longer.as_slice(),
            bits.as_mut_slice(),
            labels.as_mut_slice(),
            &mut names,
            directory.as_mut_slice(),
        ),
        (10, 8191)
    );
    Ok(())
}

// Elements 8,191 deep.
#[test]
fn deepest(rt: HostRuntime) -> Result<(), Fail> {
    let mut file = vec![in rt.alloc(); 0_u8; 33]?;
    file[0] = 0x04;
    file[1] = b'a';
    for _ in 0..8191 {
        file.push(0x01)?;
        file.push(0x00)?;
        file.push(0x02)?;
    }
    for _ in 0..8191 {
        file.push(0x02)?;
    }
    file.push(0x0f)?;
    let mut bits = vec![in rt.alloc(); 0xff_u8; 2048]?;
    let mut labels = vec![in rt.alloc(); 9_u16; 8192]?;
    let mut names = [[7_u8; 32]; 1];
    let mut directory = vec![in rt.alloc(); OLD; 64]?;
    let mut t = ParenTree::lone();
    match read_tree(
        &mut t,
        file.as_slice(),
        bits.as_mut_slice(),
        labels.as_mut_slice(),
        &mut names,
        directory.as_mut_slice(),
    ) {
        Ok(end) => assert_eq!(rt; (end.place, end.names), (32798, 1)),
        Err(fault) => assert_eq!(rt; refusal(fault), (0, 32798)),
    }
    assert_eq!(rt; t.count(), 8192);
    for v in 0..8192 {
        assert_eq!(rt; t.size(v), 8192 - v);
        assert_eq!(rt; t.next_sibling(v), None);
    }
    assert_eq!(rt; t.label(8191), 2);
    Ok(())
}

// 512 names are the most; the next is refused by 8.
#[test]
fn most_names(rt: HostRuntime) -> Result<(), Fail> {
    let mut file = vec![in rt.alloc()]?;
    for i in 0..513_usize {
        file.push(0x04_u8)?;
        file.push(b'n')?;
        file.push(b'0' + (i / 100) as u8)?;
        file.push(b'0' + (i / 10 % 10) as u8)?;
        file.push(b'0' + (i % 10) as u8)?;
        for _ in 0..28 {
            file.push(0)?;
        }
    }
    let mut bits = [0_u8; 1];
    let mut labels = [9_u16; 1];
    let mut names = vec![in rt.alloc(); [0_u8; 32]; 600]?;
    let mut directory = [OLD; 1];
    assert_eq!(rt;
        outcome(
            file.as_slice(),
            &mut bits,
            &mut labels,
            names.as_mut_slice(),
            &mut directory,
        ),
        (8, 33 * 512)
    );
    Ok(())
}
