// The example: card(step(warn(text)) step(step(warn)) warn) below its root, as a feed file.
use feedfile::command::FileFault;
use feedtree::{read_sealed, read_tree};
use parens::paren_tree::ParenTree;
use scan::block::Block;
use tree::Tree;

// NAME card, NAME step, NAME warn, then OPEN 2, OPEN 3, OPEN 4, TEXT, SHUT, SHUT, OPEN 3, OPEN 3, OPEN 4, SHUT, SHUT, SHUT,
// OPEN 4, SHUT, SHUT and SEAL
pub(crate) const FILE: [u8; 129] = [
    0x04, 0x63, 0x61, 0x72, 0x64, 0x00, 0x00, 0x00, 0x00, 0x00, 0x00, 0x00, 0x00, 0x00, 0x00, 0x00,
    0x00, 0x00, 0x00, 0x00, 0x00, 0x00, 0x00, 0x00, 0x00, 0x00, 0x00, 0x00, 0x00, 0x00, 0x00, 0x00,
    0x00, 0x04, 0x73, 0x74, 0x65, 0x70, 0x00, 0x00, 0x00, 0x00, 0x00, 0x00, 0x00, 0x00, 0x00, 0x00,
    0x00, 0x00, 0x00, 0x00, 0x00, 0x00, 0x00, 0x00, 0x00, 0x00, 0x00, 0x00, 0x00, 0x00, 0x00, 0x00,
    0x00, 0x00, 0x04, 0x77, 0x61, 0x72, 0x6e, 0x00, 0x00, 0x00, 0x00, 0x00, 0x00, 0x00, 0x00, 0x00,
    0x00, 0x00, 0x00, 0x00, 0x00, 0x00, 0x00, 0x00, 0x00, 0x00, 0x00, 0x00, 0x00, 0x00, 0x00, 0x00,
    0x00, 0x00, 0x00, 0x01, 0x00, 0x02, 0x01, 0x00, 0x03, 0x01, 0x00, 0x04, 0x03, 0x02, 0x02, 0x01,
    0x00, 0x03, 0x01, 0x00, 0x03, 0x01, 0x00, 0x04, 0x02, 0x02, 0x02, 0x01, 0x00, 0x04, 0x02, 0x02,
    0x0f,
];

// the place of each command
const STARTS: [usize; 19] = [
    0, 33, 66, 99, 102, 105, 108, 109, 110, 111, 114, 117, 120, 121, 122, 123, 126, 127, 128,
];

pub(crate) const OLD: Block = Block {
    before: 5,
    least: 5,
};

// The number of the refusal and its place; 0 and the place after SEAL where nothing is refused.
pub(crate) fn outcome(
    file: &[u8],
    bits: &mut [u8],
    labels: &mut [u16],
    names: &mut [[u8; 32]],
    directory: &mut [Block],
) -> (u8, usize) {
    match read_sealed(file, bits, labels, names, directory) {
        Ok(done) => {
            let (sealed, place) = done;
            let _ = sealed.abandon();
            (0, place)
        }
        Err(fault) => refusal(fault),
    }
}

pub(crate) fn refusal(fault: FileFault) -> (u8, usize) {
    (fault.code(), fault.place())
}

#[test]
fn memory(rt: HostRuntime) {
    let mut bits = [0xff_u8; 4];
    let mut labels = [9_u16; 10];
    let mut names = [[7_u8; 32]; 4];
    let mut directory = [OLD; 2];
    assert_eq!(rt;
        outcome(&FILE, &mut bits, &mut labels, &mut names, &mut directory),
        (0, 129)
    );
    assert_eq!(rt; bits, [0xf8, 0xe2, 0x00, 0xff]);
    assert_eq!(rt; labels, [0, 2, 3, 4, 1, 3, 3, 4, 4, 9]);
    assert_eq!(rt; names[0][0], b'c');
    assert_eq!(rt; (names[1][0], names[1][3], names[1][4]), (b's', b'p', 0));
    assert_eq!(rt; (names[2][0], names[2][31]), (b'w', 0));
    assert_eq!(rt; (names[3][0], names[3][31]), (7, 7));
    assert_eq!(rt; (directory[0].before, directory[0].least), (0, 0));
    assert_eq!(rt; (directory[1].before, directory[1].least), (5, 5));
}

#[test]
fn rows(rt: HostRuntime) {
    let mut bits = [0xff_u8; 3];
    let mut labels = [9_u16; 9];
    let mut names = [[0_u8; 32]; 3];
    let mut directory = [OLD; 1];
    let mut t = ParenTree::lone();
    match read_tree(
        &mut t,
        &FILE,
        &mut bits,
        &mut labels,
        &mut names,
        &mut directory,
    ) {
        Ok(end) => assert_eq!(rt; (end.place, end.names), (129, 3)),
        Err(fault) => assert_eq!(rt; refusal(fault), (0, 129)),
    }
    assert_eq!(rt; t.count(), 9);
    let labelled = [0, 2, 3, 4, 1, 3, 3, 4, 4];
    let sizes = [9, 8, 3, 2, 1, 3, 2, 1, 1];
    let nexts = [None, None, Some(5), None, None, Some(8), None, None, None];
    for v in 0..9 {
        assert_eq!(rt; t.label(v), labelled[v]);
        assert_eq!(rt; t.size(v), sizes[v]);
        assert_eq!(rt; t.next_sibling(v), nexts[v]);
        assert_eq!(rt; t.first_child(v).is_some(), sizes[v] > 1);
    }
}

// Bytes after SEAL are not looked at.
#[test]
fn more_follows(rt: HostRuntime) {
    let mut bits = [0xff_u8; 1];
    let mut labels = [9_u16; 1];
    let mut names = [[0_u8; 32]; 0];
    let mut directory = [OLD; 1];
    assert_eq!(rt;
        outcome(
            &[0x0f, 0x2f, 0x2f],
            &mut bits,
            &mut labels,
            &mut names,
            &mut directory,
        ),
        (0, 1)
    );
    assert_eq!(rt; (bits[0], labels[0]), (0x80, 0));
}

// Cut at any length, the file is refused by 7 at the command that is cut short, or at the length.
#[test]
fn cut(rt: HostRuntime) {
    for k in 0..129 {
        let mut bits = [0xff_u8; 3];
        let mut labels = [9_u16; 9];
        let mut names = [[7_u8; 32]; 3];
        let mut directory = [OLD; 1];
        let mut place = 0;
        for start in STARTS {
            if start <= k {
                place = start;
            }
        }
        assert_eq!(rt;
            outcome(
                &FILE[..k],
                &mut bits,
                &mut labels,
                &mut names,
                &mut directory,
            ),
            (7, place)
        );
        assert_eq!(rt; (directory[0].before, directory[0].least), (5, 5));
        // what was fed before stays
        if k >= 109 {
            assert_eq!(rt; (labels[3], labels[4]), (4, 1));
            assert_eq!(rt;
                bits[0],
                0xf8 | if k == 109 {
                    0x03
                } else if k == 110 {
                    0x01
                } else {
                    0
                }
            );
        } else {
            assert_eq!(rt; labels[4], 9);
        }
    }
}
