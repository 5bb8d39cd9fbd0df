// The strong test of a table with a domain.
ghost use Rattle.std.specs.Prelude.{◌≡◌, ◌≤◌, MatchOption, MatchResult};
ghost use Rattle.table.specs.Grammar.{grammar};
ghost use Rattle.analysis.specs.Clashes.{ClashFree};
ghost use Rattle.analysis.specs.Searches.{FirstClash};
ghost use Rattle.analysis.specs.Verdict.{Passes, Refused, refusal, values};

use crate::contested::write_contested;
use crate::faults::{CheckFault, Clash};
use crate::places::Tests;
use crate::search::first_clash;
use crate::testable::Testable;
use domain::Domain;
use table::made::Table;

// The first clash of the table's productions. There is room for the answers of 2, 8 or 126 tests, the last as many as a table can have
// productions: clearing room for 126, as an `ArrayVec` does too, takes longer than the whole test of a small table.
fn clash<D: Domain>(table: &Table, domain: &Testable<'_, D>) -> Option<Clash>
    ensures { MatchOption result (ClashFree (D.meaning domain.now.domain.now).classes (grammar table.now.draft)) (FirstClash (D.meaning domain.now.domain.now).classes (grammar table.now.draft)) }
{
    let mut kinds = [0; 126];
    write_contested(table, &mut kinds);
    let mut tests = Tests::none();
    tests.place_all(table, &kinds);
    match tests.count {
        0 => None,
        1..=2 => first_clash::<D, 2>(domain, table, &kinds, &tests),
        3..=8 => first_clash::<D, 8>(domain, table, &kinds, &tests),
        _ => first_clash::<D, 126>(domain, table, &kinds, &tests),
    }
}

// Whether one word of sight decides between any two productions of the table: nothing, or why not.
pub fn check<D: Domain>(table: &Table, domain: &D) -> Result<(), CheckFault>
    ensures { MatchResult result (λ _. Passes (D.meaning domain.now).classes (grammar table.now.draft)) (λ f. Refused (D.meaning domain.now).classes (grammar table.now.draft) (refusal f) (values f)) }
{
    let domain = Testable::of(domain)?;
    match clash(table, &domain) {
        Some(clash) => Err(CheckFault::TwoClash(clash)),
        None => Ok(()),
    }
}
