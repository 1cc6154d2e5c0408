// Reads a query from standard input, and prints its short spelling or the refusal.
#![tactic(auto)]

use anyhow::Context;
use query::parsed::Query;
use reader::read;
use spelling::write_spelling;
use std::io::{Read, Write};

// One byte more than a query may have.
const READ_AT_MOST: u64 = 513;

fn main(rt: HostRuntime) -> anyhow::Result<()> {
    run(&rt)
}

fn run(rt: &HostRuntime) -> anyhow::Result<()> {
    let mut text: Vec<u8> = Vec::new(rt.alloc());
    rt.stdin().take(READ_AT_MOST).read_to_end(&mut text)?;
    match read(text.as_slice()) {
        Ok(query) => print_spelling(rt, &query),
        Err(fault) => {
            println!(rt; "{fault}")?;
            Ok(())
        }
    }
}

fn print_spelling(rt: &HostRuntime, query: &Query) -> anyhow::Result<()> {
    let mut memory = [0u8; 512];
    let size = write_spelling(query, &mut memory)?;
    let spelling = memory.get(..size).context("the memory is too small")?;
    rt.stdout().write_all(spelling)?;
    println!(rt)?;
    Ok(())
}
