// The whole way, from the bytes of an input to what is printed.
ghost use Rattle.std.specs.Prelude.{◌≤◌, length, drop};
ghost use Rattle.reader.specs.Answers.{Answers};
ghost use Rattle.choosing.specs.Choosing.{Chooses};

use crate::chosen::{ChooseError, Fault, MOST_BYTES};
use crate::memory::Memory;
use crate::select_text::select_text;
use feedtree::read_tree;
use parens::paren_tree::ParenTree;
use query::fault::Fault as QueryFault;
use query::parsed::Query;
use reader::read;
use std::alloc::Global;

// The query whose text begins at a place of the input.
fn query_at(input: &[u8], place: usize) -> Result<Query, QueryFault>
    requires { place ≤ length input.now }
    ensures { Answers (drop place input.now) result }
{
    read(&input[place..])
}

// What an input answers, by memory that it uses up: the tree borrows three of the pieces, so they are taken apart here.
fn answer(heap: Global, input: &[u8], memory: Memory) -> Result<String, ChooseError>
    requires { length input.now ≤ 65536 }
    ensures { Chooses input.now result }
{
    let Memory {
        mut bits,
        mut labels,
        mut names,
        mut directory,
        mut program,
        mut work,
    } = memory;
    let names = names.as_mut_slice();
    let mut tree = ParenTree::lone();
    let end = read_tree(
        &mut tree,
        input,
        bits.as_mut_slice(),
        labels.as_mut_slice(),
        names,
        directory.as_mut_slice(),
    )?;
    let query = query_at(input, end.place)?;
    Ok(select_text(
        heap,
        &tree,
        &query,
        &names[..end.names],
        program.as_mut_slice(),
        work.as_mut_slice(),
    )?)
}

// The text to print for an input, a feed and then a query.
pub fn choose(heap: Global, input: &[u8]) -> Result<String, ChooseError>
    ensures { Chooses input.now result }
{
    if input.len() > MOST_BYTES {
        return Err(ChooseError::Refused(Fault::TooLong));
    }
    answer(heap, input, Memory::new(heap)?)
}
