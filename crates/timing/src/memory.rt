// Memory for the largest tree, program and work area, with rows besides: that of crate choosing is private to it and has none.
use names::slot::Slot;
use scan::block::Block;
use std::alloc::{AllocError, Global};
use stored::row::StoredRow;

#[derive(Drop)]
pub(crate) struct Memory {
    pub(crate) bits: Vec<u8>,
    pub(crate) labels: Vec<u16>,
    pub(crate) names: Vec<Slot>,
    pub(crate) directory: Vec<Block>,
    pub(crate) stored: Vec<StoredRow>,
    pub(crate) program: Vec<u8>,
    pub(crate) work: Vec<u64>,
}

impl Memory {
    pub(crate) fn new(heap: Global) -> Result<Memory, AllocError> {
        let block = Block {
            before: 0,
            least: 0,
        };
        let row = StoredRow {
            label: 0,
            distance: 0,
            size: 0,
        };
        Ok(Memory {
            bits: vec![in heap; 0; 2048]?,
            labels: vec![in heap; 0; 8192]?,
            names: vec![in heap; [0; 32]; 512]?,
            directory: vec![in heap; block; 64]?,
            stored: vec![in heap; row; 8192]?,
            program: vec![in heap; 0; 2048]?,
            work: vec![in heap; 0; 8192]?,
        })
    }
}
