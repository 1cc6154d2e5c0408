// The directory of a tree's parentheses.
ghost use Rattle.std.specs.Prelude.{◌≡◌, ◌*◌};
ghost use Rattle.scan.specs.Directory.{blocks, bytes};
ghost use Rattle.scan.specs.Filling.{fill_answer, filled};

use crate::block::Block;
use crate::nesting::Nesting;
use tree::fault::Fault;

// The bytes that the parentheses of so many nodes take.
pub fn bytes_for(count: usize) -> usize
    ensures { result ≡ bytes count }
{
    count.div_ceil(4)
}

// The blocks that they make. (A name for each, as the definitions have.)
pub fn blocks_for(count: usize) -> usize
    ensures { result ≡ blocks (2 * count) }
{
    count.div_ceil(128)
}

// Writes the directory of the parentheses of `count` nodes. A refusal changes nothing: memory that is too small, or a count that no tree has.
pub fn fill(bits: &[u8], count: usize, directory: &mut [Block]) -> Result<(), Fault>
    ensures answers { result ≡ fill_answer bits.now count directory.old }
    ensures leaves { directory.new ≡ filled bits.now count directory.old }
{
    let taken = bytes_for(count);
    let made = blocks_for(count);
    if taken > bits.len() || made > directory.len() {
        return Err(Fault::Memory);
    }
    if count > 8192 {
        return Err(Fault::NoTree);
    }
    let nesting = Nesting {
        bits: &bits[..taken],
        count,
    };
    nesting.write_directory(&mut directory[..made]);
    Ok(())
}
