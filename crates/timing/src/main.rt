// Times rise, fall and tally over a tree, as rows and as parentheses, for some queries. Where the word `run` is among its
// arguments the trees have 512 to 8,192 nodes and the queries are ten; with two files, one of a feed and one of queries, a
// line each, they are those. For the harness that measures the stack, the word is a kind of tree, with a feed and a query
// as input, or `sizes` for the sizes of types. Without arguments it only says how it is made to measure.
#![tactic(auto)]

mod memory;
mod probe;

use anyhow::Context;
use feedfile::opcode;
use feedtree::read_tree;
use memory::Memory;
use names::slot::Slot;
use parens::paren_tree::ParenTree;
use probe::{Kind, print_sizes, probe};
use reader::read;
use row_tree::row_tree::RowTree;
use row_tree::write::write_rows;
use selector::selector::Selector;
use std::alloc::{AllocError, Global};
use std::time::Instant;
use std::{env, fmt, fs};
use tally::count::Count;
use translate::translate;
use tree::Tree;

// The queries of `timing run`, a line each.
const QUERIES: &str = "//step//warn
/card/step
//step/following-sibling::step
//*
//node()
/self::node()
//step[warn]
//warn[not(text())]
//step[warn or text()]
//card[descendant::warn and not(descendant::card)]/step[warn]/warn/text()";

// How often each sweep is timed.
const TURNS: u32 = 50;

// What is printed of a query's turns: their mean in nanoseconds a node, or their shortest in tenths of these.
#[derive(Clone, Copy)]
enum Form {
    Mean,
    Shortest,
}

// The queries to time, a line each, and what is printed of them.
#[derive(Clone, Copy)]
struct Task<'a> {
    queries: &'a str,
    form: Form,
}

// What sweeps over a tree took, in nanoseconds.
#[derive(Clone, Copy)]
struct Times {
    rise: u128,
    fall: u128,
    tally: u128,
}

impl Times {
    const NONE: Times = Times {
        rise: 0,
        fall: 0,
        tally: 0,
    };

    const MOST: Times = Times {
        rise: u128::MAX,
        fall: u128::MAX,
        tally: u128::MAX,
    };

    fn plus(self, other: Times) -> Times {
        Times {
            rise: self.rise.saturating_add(other.rise),
            fall: self.fall.saturating_add(other.fall),
            tally: self.tally.saturating_add(other.tally),
        }
    }

    fn least(self, other: Times) -> Times {
        Times {
            rise: self.rise.min(other.rise),
            fall: self.fall.min(other.fall),
            tally: self.tally.min(other.tally),
        }
    }
}

// All turns of a query together, the shortest of them, and how many nodes were selected.
#[derive(Clone, Copy)]
struct Turns {
    all: Times,
    shortest: Times,
    selected: u16,
}

fn main(rt: HostRuntime) -> anyhow::Result<()> {
    if env::args(&rt)?.any(|word| word.as_str() == "run") {
        measure_made(&rt)
    } else {
        start_other(&rt)
    }
}

fn start_other(rt: &HostRuntime) -> anyhow::Result<()> {
    let mut words = env::args(rt)?.skip(1);
    match (words.next(), words.next()) {
        (Some(feed), Some(queries)) => measure_files(rt, feed.as_str(), queries.as_str()),
        (Some(word), None) => probe_word(rt, word.as_str()),
        _ => usage(rt),
    }
}

fn usage(rt: &HostRuntime) -> anyhow::Result<()> {
    println!(rt; "timing: give the word run to measure")?;
    Ok(())
}

fn measure_files(rt: &HostRuntime, feed: &str, queries: &str) -> anyhow::Result<()> {
    let feed = fs::read(rt, feed)?;
    let queries = fs::read_to_string(rt, queries)?;
    let task = Task {
        queries: queries.as_str(),
        form: Form::Shortest,
    };
    measure(rt, feed.as_slice(), task)
}

fn probe_word(rt: &HostRuntime, word: &str) -> anyhow::Result<()> {
    match word {
        "parentheses" => probe(rt, Kind::Parentheses),
        "rows" => probe(rt, Kind::Rows),
        "excerpt" => probe(rt, Kind::Excerpt),
        "sizes" => print_sizes(rt),
        _ => usage(rt),
    }
}

// Trees of 512 to 8,192 nodes.
fn measure_made(rt: &HostRuntime) -> anyhow::Result<()> {
    println!(rt; "kind nodes rise fall tally query")?;
    let task = Task {
        queries: QUERIES,
        form: Form::Mean,
    };
    for units in [170usize, 341, 682, 1365, 2730] {
        let feed = feed_of(rt.alloc(), units)?;
        measure(rt, feed.as_slice(), task)?;
    }
    Ok(())
}

// The feed of card(step(warn(#)) ..) with so many steps: 3 nodes each, and 2 more.
fn feed_of(heap: Global, units: usize) -> Result<Vec<u8>, AllocError> {
    let mut feed = Vec::new(heap);
    for name in [b"card", b"step", b"warn"] {
        feed.push(opcode::NAME)?;
        feed.extend_from_slice(name)?;
        feed.extend_from_slice(&[0u8; 28])?;
    }
    feed.extend_from_slice(&[opcode::OPEN, 0, 2])?;
    for _ in 0..units {
        feed.extend_from_slice(&[
            opcode::OPEN,
            0,
            3,
            opcode::OPEN,
            0,
            4,
            opcode::TEXT,
            opcode::SHUT,
            opcode::SHUT,
        ])?;
    }
    feed.extend_from_slice(&[opcode::SHUT, opcode::SEAL])?;
    Ok(feed)
}

fn measure(rt: &HostRuntime, feed: &[u8], task: Task<'_>) -> anyhow::Result<()> {
    let Memory {
        mut bits,
        mut labels,
        mut names,
        mut directory,
        mut stored,
        mut program,
        mut work,
    } = Memory::new(rt.alloc())?;
    let names = names.as_mut_slice();
    let program = program.as_mut_slice();
    let work = work.as_mut_slice();
    let mut tree = ParenTree::lone();
    let end = read_tree(
        &mut tree,
        feed,
        bits.as_mut_slice(),
        labels.as_mut_slice(),
        names,
        directory.as_mut_slice(),
    )
    .ok()
    .context("the feed was refused")?;
    let fed = names.get(..end.names).context("the feed was refused")?;
    let count = write_rows(&tree, stored.as_mut_slice())
        .ok()
        .context("the rows were refused")?;
    let written = stored
        .as_slice()
        .get(..count)
        .context("the rows were refused")?;
    let mut rows = RowTree::lone();
    rows.load(written).ok().context("the rows are of no tree")?;
    measure_tree(rt, "rows", &rows, fed, task, program, work)?;
    measure_tree(rt, "parentheses", &tree, fed, task, program, work)
}

fn measure_tree<T: Tree>(
    rt: &HostRuntime,
    kind: &str,
    tree: &T,
    names: &[Slot],
    task: Task<'_>,
    program: &mut [u8],
    work: &mut [u64],
) -> anyhow::Result<()> {
    for text in task.queries.lines() {
        let query = read(text.as_bytes()).ok().context("a query was refused")?;
        let size = translate(&query, names, program)
            .ok()
            .context("a translation was refused")?;
        let translation = program.get(..size).context("a translation was refused")?;
        let turns = time_turns(rt, tree, translation, work)?;
        let nodes = tree.count();
        match task.form {
            Form::Mean => print_mean(rt, kind, nodes, turns.all, query.len)?,
            Form::Shortest => print_shortest(rt, kind, nodes, turns, text)?,
        }
    }
    Ok(())
}

fn print_mean(
    rt: &HostRuntime,
    kind: &str,
    nodes: usize,
    all: Times,
    bytes: u16,
) -> anyhow::Result<()> {
    let share = (nodes as u128).saturating_mul(TURNS as u128).max(1);
    let rise = all.rise / share;
    let fall = all.fall / share;
    let tally = all.tally / share;
    println!(rt; "{kind} {nodes} {rise} {fall} {tally} of {bytes} bytes")?;
    Ok(())
}

fn print_shortest(
    rt: &HostRuntime,
    kind: &str,
    nodes: usize,
    turns: Turns,
    text: &str,
) -> anyhow::Result<()> {
    let rise = per_node(turns.shortest.rise, nodes);
    let fall = per_node(turns.shortest.fall, nodes);
    let tally = per_node(turns.shortest.tally, nodes);
    let selected = turns.selected;
    println!(rt;
        "{kind} {nodes} nodes, {selected} selected, ns a node: rise {rise} fall {fall} tally {tally}: {text}"
    )?;
    Ok(())
}

// Nanoseconds a node, in tenths.
#[derive(Clone, Copy)]
struct Tenths(u128);

impl fmt::Display for Tenths {
    fn fmt<W: fmt::Write>(&self, f: &mut fmt::Formatter<W>) -> fmt::Result {
        let whole = self.0 / 10;
        let rest = self.0 % 10;
        write!(f, "{whole}.{rest}")
    }
}

fn per_node(nanos: u128, nodes: usize) -> Tenths {
    Tenths(nanos.saturating_mul(10) / (nodes as u128).max(1))
}

fn time_turns<T: Tree>(
    rt: &HostRuntime,
    tree: &T,
    program: &[u8],
    work: &mut [u64],
) -> anyhow::Result<Turns> {
    let mut selector = Selector::new();
    let mut turns = Turns {
        all: Times::NONE,
        shortest: Times::MOST,
        selected: 0,
    };
    for _ in 0..TURNS {
        let (once, selected) = time_turn(rt, &mut selector, tree, program, work)?;
        turns = Turns {
            all: turns.all.plus(once),
            shortest: turns.shortest.least(once),
            selected,
        };
    }
    Ok(turns)
}

// What one turn takes, and how many nodes are selected.
fn time_turn<T: Tree>(
    rt: &HostRuntime,
    selector: &mut Selector,
    tree: &T,
    program: &[u8],
    work: &mut [u64],
) -> anyhow::Result<(Times, u16)> {
    let n = tree.count();
    selector
        .load(tree, program)
        .ok()
        .context("a load was refused")?;
    let (risen, rise) = timed(rt, || selector.rise(tree, work, n))?;
    let (fallen, fall) = timed(rt, || selector.fall(tree, work, n))?;
    let (counted, tally) = timed(rt, || selector.tally::<T, Count>(tree, work, 0, n))?;
    risen.and(fallen).ok().context("a sweep was refused")?;
    let selected = counted.ok().context("a sweep was refused")?;
    Ok((Times { rise, fall, tally }, selected.count))
}

// What a call gives, and the nanoseconds that it took.
fn timed<R, F: FnOnce() -> R>(rt: &HostRuntime, call: F) -> anyhow::Result<(R, u128)>
where
    R: Drop,
    requires { F.pre call }
{
    let start = Instant::now(rt)?;
    let given = call();
    Ok((given, start.elapsed(rt)?.as_nanos()))
}
