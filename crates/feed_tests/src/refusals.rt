// Each refusal at its place.
use crate::example::{OLD, outcome};
use feed::types::Growing;
use std::test::Fail;

// A file fed into memory for four nodes, two names and one block.
fn fed(file: &[u8]) -> (u8, usize) {
    let mut bits = [0xff_u8; 1];
    let mut labels = [9_u16; 5];
    let mut names = [[7_u8; 32]; 2];
    let mut directory = [OLD; 1];
    outcome(file, &mut bits, &mut labels, &mut names, &mut directory)
}

// A NAME of the given first bytes, then the same again, then an OPEN of label 2 that is left open at SEAL.
fn named(first: u8, second: u8) -> [u8; 70] {
    let mut file = [0_u8; 70];
    file[0] = 0x04;
    file[1] = first;
    file[33] = 0x04;
    file[34] = second;
    file[66] = 0x01;
    file[68] = 0x02;
    file[69] = 0x0f;
    file
}

#[test]
fn unknown(rt: HostRuntime) {
    assert_eq!(rt; fed(&[]), (7, 0));
    assert_eq!(rt; fed(&[0x03, 0x05]), (7, 1));
    assert_eq!(rt; fed(&[0x03, 0x01, 0x00]), (7, 1));
    assert_eq!(rt; fed(&[0x03, 0x03]), (7, 2));
}

#[test]
fn nodes(rt: HostRuntime) {
    assert_eq!(rt; fed(&[0x03, 0x01, 0x00, 0x01]), (9, 1));
    assert_eq!(rt; fed(&[0x01, 0x00, 0x02]), (9, 0));
    assert_eq!(rt; fed(&[0x03, 0x03, 0x03, 0x0f]), (0, 4));
    assert_eq!(rt; fed(&[0x03, 0x03, 0x03, 0x03, 0x0f]), (11, 3));
    assert_eq!(rt; fed(&[0x03, 0x02, 0x0f]), (12, 1));
}

#[test]
fn slots(rt: HostRuntime) {
    assert_eq!(rt; fed(&named(b'-', b'b')), (8, 0));
    assert_eq!(rt; fed(&named(0, b'b')), (8, 0));
    assert_eq!(rt; fed(&named(b'a', b'a')), (8, 33));
    assert_eq!(rt; fed(&named(b'a', b'_')), (13, 69));
}

// Memory for fewer names, or for no block or no root.
#[test]
fn memory(rt: HostRuntime) {
    let mut bits = [0xff_u8; 1];
    let mut labels = [9_u16; 5];
    let mut one = [[7_u8; 32]; 1];
    let mut directory = [OLD; 1];
    assert_eq!(rt;
        outcome(
            &named(b'a', b'b'),
            &mut bits,
            &mut labels,
            &mut one,
            &mut directory,
        ),
        (11, 33)
    );
    assert_eq!(rt;
        outcome(&[0x0f], &mut bits, &mut labels, &mut one, &mut []),
        (11, 0)
    );
    assert_eq!(rt;
        outcome(&[0x0f], &mut [], &mut labels, &mut one, &mut directory),
        (11, 0)
    );
}

// Memory is checked before what is open.
#[test]
fn order(rt: HostRuntime) -> Result<(), Fail> {
    let mut bits = [0xff_u8; 1];
    let mut labels = [9_u16; 1];
    let mut g = match Growing::begin(&mut bits, &mut labels) {
        Ok(g) => g,
        Err(_) => {
            assert!(rt; false);
            return Ok(())
        },
    };
    let short = match g.shut(&mut []) {
        Ok(()) => 0,
        Err(fault) => fault.code(),
    };
    let root = match g.shut(&mut bits) {
        Ok(()) => 0,
        Err(fault) => fault.code(),
    };
    assert_eq!(rt; (short, root, g.abandon()), (11, 12, 1));
    Ok(())
}
