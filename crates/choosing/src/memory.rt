// The memory that the way from an input to its text takes: for the largest tree, program and work area.
ghost use Rattle.std.specs.Prelude.{◌≡◌, length};

use names::slot::Slot;
use scan::block::Block;
use std::alloc::{AllocError, Global};

#[derive(Drop)]
pub(crate) struct Memory {
    pub(crate) bits: Vec<u8>,
    pub(crate) labels: Vec<u16>,
    pub(crate) names: Vec<Slot>,
    pub(crate) directory: Vec<Block>,
    pub(crate) program: Vec<u8>,
    pub(crate) work: Vec<u64>,
    ghost parentheses: { length bits.items ≡ 2048 },
    ghost labelled: { length labels.items ≡ 8192 },
    ghost named: { length names.items ≡ 512 },
    ghost blocks: { length directory.items ≡ 64 },
    ghost bytes: { length program.items ≡ 2048 },
    ghost words: { length work.items ≡ 8192 },
}

impl Memory {
    pub(crate) fn new(heap: Global) -> Result<Memory, AllocError> {
        let block = Block {
            before: 0,
            least: 0,
        };
        Ok(Memory {
            bits: vec![in heap; 0; 2048]?,
            labels: vec![in heap; 0; 8192]?,
            names: vec![in heap; [0; 32]; 512]?,
            directory: vec![in heap; block; 64]?,
            program: vec![in heap; 0; 2048]?,
            work: vec![in heap; 0; 8192]?,
        })
    }
}
