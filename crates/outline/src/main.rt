// Shows a small tree, kept as parentheses and as rows: a line for each node with its number, depth, label and size.
#![tactic(auto)]

use anyhow::anyhow;
use excerpt::Excerpt;
use parens::paren_tree::ParenTree;
use row_tree::row_tree::RowTree;
use row_tree::write::write_rows;
use scan::block::Block;
use scan::directory::fill;
use stored::row::StoredRow;
use tree::Tree;

// card(step(warn(#)) step(step(warn)) warn) under its root, with the labels 2 card, 3 step, 4 warn and 1 for a text
const BITS: [u8; 3] = [0xf8, 0xe2, 0x00];

const LABELS: [u16; 9] = [0, 2, 3, 4, 1, 3, 3, 4, 4];

fn main(rt: HostRuntime) -> anyhow::Result<()> {
    show(&rt)
}

fn show(rt: &HostRuntime) -> anyhow::Result<()> {
    let mut directory = [Block {
        before: 0,
        least: 0,
    }; 1];
    fill(&BITS, 9, &mut directory).map_err(|_| anyhow!("the directory was refused"))?;
    show_parens(rt, &BITS, &LABELS, &directory)
}

// Shows the tree of nine nodes that the buffers have.
fn show_parens<'a>(
    rt: &HostRuntime,
    bits: &'a [u8],
    labels: &'a [u16],
    directory: &'a [Block],
) -> anyhow::Result<()> {
    let mut tree = ParenTree::lone();
    tree.load(bits, labels, directory, 9)
        .map_err(|_| anyhow!("the buffers are of no tree"))?;
    println!(rt; "as parentheses")?;
    outline(rt, &tree)?;
    show_rows(rt, &tree)
}

// Writes a tree as a row tree, and shows that, and its excerpt at node 5.
fn show_rows<T: Tree>(rt: &HostRuntime, example: &T) -> anyhow::Result<()> {
    let mut buffer = [StoredRow {
        label: 0,
        distance: 0,
        size: 0,
    }; 16];
    let count = write_rows(example, &mut buffer).map_err(|_| anyhow!("the buffer is too small"))?;
    let Some(written) = buffer.get(..count) else {
        return Err(anyhow!("the buffer is too small"));
    };
    let mut tree = RowTree::lone();
    tree.load(written)
        .map_err(|_| anyhow!("the written rows are of no tree"))?;
    println!(rt; "as rows")?;
    outline(rt, &tree)?;
    if same(example, &tree) {
        println!(rt; "both kinds give the same outline")?;
    }
    let part = Excerpt::new(&tree, 5).map_err(|_| anyhow!("the tree has no node 5"))?;
    println!(rt; "excerpt at 5")?;
    outline(rt, &part)
}

// A line for each node: number, depth, label and size.
fn outline<T: Tree>(rt: &HostRuntime, tree: &T) -> anyhow::Result<()> {
    let heap = rt.alloc();
    // where the subtrees of the nodes above end
    let mut ends: Vec<usize> = Vec::new(heap);
    for v in 0..tree.count() {
        close(&mut ends, v);
        let depth = ends.len();
        let label = tree.label(v);
        let size = tree.size(v);
        println!(rt; "{v} {depth} {label} {size}")?;
        ends.push(v.saturating_add(size))?;
    }
    Ok(())
}

// Takes off the ends up to v: each turn takes one off, which shows that it ends, and the first that goes on is put back.
fn close(ends: &mut Vec<usize>, v: usize) {
    while let Some(end) = ends.pop() {
        if end > v {
            let _ = ends.push(end);
            return;
        }
    }
}

// Whether two trees have as many nodes, with the same labels and sizes, and so the same outline.
fn same<S: Tree, T: Tree>(a: &S, b: &T) -> bool {
    a.count() == b.count()
        && (0..a.count()).all(|v| a.label(v) == b.label(v) && a.size(v) == b.size(v))
}
