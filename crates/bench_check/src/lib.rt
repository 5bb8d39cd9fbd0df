// The strong test of a table that is given in bytes, for the benchmark to call.
#![tactic(auto)]

mod bytes;
mod sums;

use analysis::faults::{CheckFault, Clash};
use analysis::verdict::check;
use anyhow::{anyhow, bail};
use bytes::Bytes;
use case_reader::domains::read_case_minutes;
use case_reader::drafts::read_case_draft;
use case_reader::numbers::CaseNumbers;
use domain::Domain;
use domain::posts::Posts;
use std::alloc::Global;
use sums::Sums;

// What bytes give that are no case.
const NO_CASE: u64 = 1 << 41;

// A verdict as a number, since C has no Result: 0 where the table passes, and 2^40 and the five numbers of a clash, a byte each.
fn number(verdict: Result<(), CheckFault>) -> u64 {
    match verdict {
        Ok(()) => 0,
        Err(CheckFault::ManyClasses { .. }) => NO_CASE,
        Err(CheckFault::TwoClash(clash)) => {
            let Clash {
                a,
                b,
                kind,
                inherited,
                word,
            } = clash;
            u64::from_be_bytes([0, 0, 1, a, b, kind, inherited, word])
        }
    }
}

// Reads a table, tests it so many times with the domain, and gives the sum of the verdicts.
fn sum<D: Domain>(
    heap: Global,
    from: &mut Bytes<'_>,
    domain: &D,
    runs: u32,
) -> anyhow::Result<u64> {
    let draft = read_case_draft(heap, from)?;
    from.end()?;
    draft.review().map_err(|_| anyhow!("the table is refused"))?;
    let table = draft.make();
    Ok((0..runs).fold(
        0,
        |sum: u64, _| sum.wrapping_add(number(check(&table, domain))),
    ))
}

// The cases of sets choose a domain so too: a function of both would need a trait whose method is generic over domains, no plainer.
fn case_sum(heap: Global, bytes: &[u8], runs: u32) -> anyhow::Result<u64> {
    let mut from = Bytes::new(bytes);
    match from.byte()? {
        1 => {
            let minutes = read_case_minutes(heap, &mut from)?.map_err(|_| anyhow!(
                "no such Minutes"
            ))?;
            sum(heap, &mut from, &minutes, runs)
        }
        2 => {
            let posts = Posts::new(from.byte()?).map_err(|_| anyhow!("no such Posts"))?;
            sum(heap, &mut from, &posts, runs)
        }
        3 => sum(heap, &mut from, &Sums, runs),
        _ => bail!("no such domain"),
    }
}

// Tests the case so many times, and gives the sum of the verdicts.
#[unsafe(no_mangle)]
pub extern "C" fn check_case(heap: Global, bytes: &[u8], runs: u32) -> u64 {
    case_sum(heap, bytes, runs).unwrap_or(NO_CASE)
}
