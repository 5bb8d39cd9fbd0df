// Reads a sheet from standard input with the table that the program holds, or tells of that table.
#![tactic(auto)]

use analysis::verdict::check;
use anyhow::anyhow;
use held::domains::held_minutes;
use held::drafts::held_draft;
use held::lines::SheetLine;
use held::verdicts::{NonterminalLine, ProductionLine, Verdict};
use sets::found::listed;
use sets::words::{PredictWords, SetWords};
use std::env;
use std::io::Read;
use table::made::Table;
use text::lexemes::MOST_BYTES;

// The text of standard input, cut where it is seen to be too long.
fn read_sheet(rt: &HostRuntime) -> anyhow::Result<Vec<u8>> {
    let mut text = Vec::new(rt.alloc());
    rt.stdin()
        .take(MOST_BYTES as u64 + 1)
        .read_to_end(&mut text)?;
    Ok(text)
}

// `orders`: what came of the sheet.
fn read_and_tell(rt: &HostRuntime, table: &Table) -> anyhow::Result<()> {
    let text = read_sheet(rt)?;
    let line = SheetLine::of(&text, table, &held_minutes(rt.alloc()), rt.alloc())?;
    println!(rt; "{line}")?;
    Ok(())
}

// `orders check`: whether one word decides.
fn tell_verdict(rt: &HostRuntime, table: &Table) -> anyhow::Result<()> {
    let verdict = Verdict(check(table, &held_minutes(rt.alloc())));
    println!(rt; "{verdict}")?;
    Ok(())
}

// `orders sets`: First and Follow of each nonterminal, and Predict of each production.
fn tell_sets(rt: &HostRuntime, table: &Table) -> anyhow::Result<()> {
    let sets = &SetWords::of(table);
    for nonterminal in 0..table.draft().nonterminals {
        println!(rt; "{}", NonterminalLine { sets, nonterminal })?;
    }
    let predicts = &PredictWords::of(table);
    for production in 0..listed(table).len() as u8 {
        println!(rt;
            "{}",
            ProductionLine {
                predicts,
                production
            }
        )?;
    }
    Ok(())
}

fn run(rt: &HostRuntime) -> anyhow::Result<()> {
    let draft = held_draft(rt.alloc())?;
    // Asked first, since nothing that holds a table goes through a Result.
    draft.review().map_err(|_| anyhow!("the table is refused"))?;
    let table = draft.make();
    let command = env::args(rt)?.nth(1);
    match command.as_deref() {
        None => read_and_tell(rt, &table),
        Some("check") => tell_verdict(rt, &table),
        Some("sets") => tell_sets(rt, &table),
        Some(_) => Err(anyhow!("usage: orders [check | sets]")),
    }
}

fn main(rt: HostRuntime) -> anyhow::Result<()> {
    run(&rt)
}
