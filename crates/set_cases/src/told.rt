// The line that tells the sets and the verdict of a case.
use crate::numbers::{Line, numbers};
use analysis::verdict::check;
use anyhow::{anyhow, bail};
use case_reader::domains::read_case_minutes;
use case_reader::drafts::read_case_draft;
use case_reader::numbers::CaseNumbers;
use domain::Domain;
use domain::posts::Posts;
use held::verdicts::Verdict;
use sets::found::listed;
use sets::words::{PredictWords, SetWords};
use std::alloc::Global;
use std::fmt::Write;

// For each nonterminal whether it can be empty, its First and Follow sets; for each production its Predict set; and the verdict.
fn told_with<D: Domain>(heap: Global, from: &mut Line<'_>, domain: &D) -> anyhow::Result<String> {
    let draft = read_case_draft(heap, from)?;
    from.end()?;
    draft.review().map_err(|_| anyhow!("the table is refused"))?;
    let table = draft.make();
    let sets = SetWords::of(&table);
    let predicts = PredictWords::of(&table);
    let mut told = String::new(heap);
    for a in 0..table.draft().nonterminals {
        let empty = u8::from(sets.can_be_empty(a));
        let first = u64::from(sets.first(a));
        let follow = u64::from(sets.follow(a));
        write!(told, "{empty} {first} {follow} ")?;
    }
    for n in 0..listed(&table).len() as u8 {
        let predict = u64::from(predicts.get(n));
        write!(told, "{predict} ")?;
    }
    write!(told, "{}", Verdict(check(&table, domain)))?;
    Ok(told)
}

// The benchmark's cases choose a domain so too: a function of both would need a trait whose method is generic over domains, no plainer.
pub(crate) fn told(heap: Global, line: &str) -> anyhow::Result<String> {
    let numbers = numbers(heap, line)?;
    let mut from = Line::new(&numbers);
    match from.long()? {
        1 => {
            let minutes = read_case_minutes(heap, &mut from)?.map_err(|_| anyhow!(
                "no such Minutes"
            ))?;
            told_with(heap, &mut from, &minutes)
        }
        2 => {
            let posts = Posts::new(from.byte()?).map_err(|_| anyhow!("no such Posts"))?;
            told_with(heap, &mut from, &posts)
        }
        _ => bail!("no such domain"),
    }
}
