// Reads a table with its domain from each line of standard input, and prints its sets and whether it passes.
#![tactic(auto)]

mod numbers;
mod told;

use std::io::{BufRead, BufReader};
use told::told;

fn main(rt: HostRuntime) -> anyhow::Result<()> {
    for line in BufReader::new(rt.alloc(), rt.stdin())?.lines(rt.alloc()) {
        let line = told(rt.alloc(), line?.as_str())?;
        println!(rt; "{line}")?;
    }
    Ok(())
}
