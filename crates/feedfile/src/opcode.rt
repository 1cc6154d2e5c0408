// The first byte of each command of a feed file.

// opens an element of the label in the two bytes after it
pub const OPEN: u8 = 0x01;

pub const SHUT: u8 = 0x02;

pub const TEXT: u8 = 0x03;

// adds the name in the slot of 32 bytes after it
pub const NAME: u8 = 0x04;

pub const SEAL: u8 = 0x0f;
