// Answers cases of tables, domains and texts, one to a line: the first word says what is asked, and `make.py` has the format.
#![tactic(auto)]

mod answers;
mod domains;
mod drafts;
mod texts;
mod words;

use answers::Answer;
use anyhow::{anyhow, bail};
use domains::{minutes_case, posts_case};
use drafts::draft_case;
use std::alloc::Global;
use std::io::Read;
use texts::{blank_case, sheet_case, text_case};
use words::Words;

// More cases than this are not read.
const MOST_CASES: u32 = 100_000;

fn answer(heap: Global, name: &[u8], words: &mut Words<'_>) -> anyhow::Result<Answer> {
    match name {
        b"minutes" => minutes_case(heap, words),
        b"posts" => posts_case(words),
        b"draft" => draft_case(heap, words),
        b"text" => text_case(heap, words),
        b"sheet" => sheet_case(heap, words),
        b"blank" => blank_case(heap, words),
        _ => bail!("no such case"),
    }
}

fn main(rt: HostRuntime) -> anyhow::Result<()> {
    let mut input = Vec::new(rt.alloc());
    rt.stdin().read_to_end(&mut input)?;
    let mut words = Words::new(&input);

    // No `while let`: each reader would have to promise that it moves on; with this bound none has to.
    for _ in 0..MOST_CASES {
        let Some(name) = words.name() else {
            break;
        };
        let answer = answer(rt.alloc(), name, &mut words).map_err(|_| anyhow!(
            "a case is malformed, or there is no memory"
        ))?;
        println!(rt; "{answer}")?;
    }
    Ok(())
}
