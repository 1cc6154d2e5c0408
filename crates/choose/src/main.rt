// Reads a feed and then a query from standard input, and prints what the query selects in the tree fed, or the refusal.
#![tactic(auto)]

use choosing::choose::choose;
use choosing::chosen::ChooseError;
use std::io::Read;

// One byte more than an input may have: a longer one is refused without reading on.
const READ_AT_MOST: u64 = 65537;

fn main(rt: HostRuntime) -> anyhow::Result<()> {
    run(&rt)
}

fn run(rt: &HostRuntime) -> anyhow::Result<()> {
    let heap = rt.alloc();
    let mut input = Vec::new(heap);
    rt.stdin().take(READ_AT_MOST).read_to_end(&mut input)?;
    match choose(heap, input.as_slice()) {
        Ok(text) => rt.print(text.as_str())?,
        Err(ChooseError::Refused(fault)) => println!(rt; "{fault}")?,
        Err(error) => return Err(error.into()),
    }
    Ok(())
}
