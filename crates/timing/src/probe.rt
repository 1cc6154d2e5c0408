// Makes the library calls on the feed and the query of standard input, so that a harness can measure the stack that each
// takes.
use crate::memory::Memory;
use anyhow::Context;
use excerpt::Excerpt;
use feed::types::Growing;
use feedtree::read_tree;
use names::slot::Slot;
use parens::paren_tree::ParenTree;
use query::parsed::Query;
use reader::read;
use row_tree::row_tree::RowTree;
use row_tree::write::write_rows;
use scan::block::Block;
use select::{prepare, select};
use selector::selector::Selector;
use spelling::write_spelling;
use std::io::Read;
use std::mem::size_of;
use stored::row::StoredRow;
use tally::count::Count;
use tally::extent::Extent;
use tally::leading::LeadingTwelve;
use translate::translate;
use tree::Tree;

const READ_AT_MOST: u64 = 65536;

// The node of the excerpt.
const INNER_NODE: usize = 1;

// The kind of tree that a selector goes over.
#[derive(Clone, Copy)]
pub(crate) enum Kind {
    Parentheses,
    Rows,
    Excerpt,
}

// Prints the sizes of the types that a caller holds, in bytes.
pub(crate) fn print_sizes(rt: &HostRuntime) -> anyhow::Result<()> {
    let sizes = [
        ("Query", size_of::<Query>()),
        ("Selector", size_of::<Selector>()),
        ("ParenTree", size_of::<ParenTree<'static>>()),
        ("RowTree", size_of::<RowTree<'static>>()),
        ("Growing", size_of::<Growing>()),
        ("Count", size_of::<Count>()),
        ("Extent", size_of::<Extent>()),
        ("LeadingTwelve", size_of::<LeadingTwelve>()),
        ("StoredRow", size_of::<StoredRow>()),
        ("Block", size_of::<Block>()),
        ("Slot", size_of::<Slot>()),
    ];
    for (name, bytes) in sizes {
        println!(rt; "{name} {bytes}")?;
    }
    Ok(())
}

// Reads a feed and a query, and makes the calls.
pub(crate) fn probe(rt: &HostRuntime, kind: Kind) -> anyhow::Result<()> {
    let heap = rt.alloc();
    let mut input = Vec::new(heap);
    rt.stdin().take(READ_AT_MOST).read_to_end(&mut input)?;
    let memory = Memory::new(heap)?;
    let count = probe_input(kind, input.as_slice(), memory).context("a call was refused")?;
    println!(rt; "{count} selected")?;
    Ok(())
}

// From a feed file and a query to the number of nodes selected. The tree borrows three of the pieces of memory, so they are taken
// apart here.
fn probe_input(kind: Kind, input: &[u8], memory: Memory) -> Option<u16> {
    let Memory {
        mut bits,
        mut labels,
        mut names,
        mut directory,
        mut stored,
        mut program,
        mut work,
    } = memory;
    let names = names.as_mut_slice();
    let program = program.as_mut_slice();
    let work = work.as_mut_slice();
    let mut tree = ParenTree::lone();
    let end = read_tree(
        &mut tree,
        input,
        bits.as_mut_slice(),
        labels.as_mut_slice(),
        names,
        directory.as_mut_slice(),
    )
    .ok()?;
    let text = input.get(end.place..)?;
    let fed = names.get(..end.names)?;
    let query = read(text).ok()?;
    write_spelling(&query, program).ok()?;
    match kind {
        Kind::Parentheses => probe_tree(&tree, &query, fed, program, work),
        Kind::Rows => probe_rows(&tree, &query, fed, stored.as_mut_slice(), program, work),
        Kind::Excerpt => {
            let part = Excerpt::new(&tree, INNER_NODE).ok()?;
            probe_tree(&part, &query, fed, program, work)
        }
    }
}

// The rows of a tree. The tree borrows other parts of Memory, so what is left goes piece by piece.
fn probe_rows<T: Tree>(
    tree: &T,
    query: &Query,
    names: &[Slot],
    stored: &mut [StoredRow],
    program: &mut [u8],
    work: &mut [u64],
) -> Option<u16> {
    let count = write_rows(tree, stored).ok()?;
    let mut rows = RowTree::lone();
    rows.load(stored.get(..count)?).ok()?;
    probe_tree(&rows, query, names, program, work)
}

// The calls with a query and a tree: the number of nodes selected.
fn probe_tree<T: Tree>(
    tree: &T,
    query: &Query,
    names: &[Slot],
    program: &mut [u8],
    work: &mut [u64],
) -> Option<u16> {
    let n = tree.count();
    let mut selector = Selector::new();
    prepare(&mut selector, query, names, tree, program, work).ok()?;
    let led: LeadingTwelve = select(&mut selector, query, names, tree, program, work, 0, n).ok()?;
    let size = translate(query, names, program).ok()?;
    let counted = probe_selector(&mut selector, tree, program.get(..size)?, work)?;
    (led.nodes().len() <= counted as usize).then_some(counted)
}

// Loads a program, sweeps in two parts each, and takes a tally of each kind.
fn probe_selector<T: Tree>(
    selector: &mut Selector,
    tree: &T,
    program: &[u8],
    work: &mut [u64],
) -> Option<u16> {
    let n = tree.count();
    selector.load(tree, program).ok()?;
    for k in [n / 2, n] {
        selector.rise(tree, work, k).ok()?;
    }
    for k in [n / 2, n] {
        selector.fall(tree, work, k).ok()?;
    }
    let counted: Count = selector.tally(tree, work, 0, n).ok()?;
    let reached: Extent = selector.tally(tree, work, 0, n).ok()?;
    let led: LeadingTwelve = selector.tally(tree, work, 0, n).ok()?;
    (reached.is_some() || !led.more()).then_some(counted.count)
}
