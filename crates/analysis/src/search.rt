// The search for the first clash.
ghost use Rattle.std.specs.Prelude.{◌≡◌, ℕ, ◌<◌, ◌≤◌, ◌↔◌, IsTrue, MatchOption, bit_and, slice_index};
ghost use Rattle.table.specs.Grammar.{grammar};
ghost use Rattle.analysis.specs.Clashes.{ClashFree};
ghost use Rattle.analysis.specs.Contested.{Contested};
ghost use Rattle.analysis.specs.Searches.{FirstClash};
ghost use Rattle.analysis.specs.Places.{AllPlaced};

use crate::answers::Answers;
use crate::faults::Clash;
use crate::places::Tests;
use crate::testable::Testable;
use domain::Domain;
use sets::found::listed;
use table::kinds::END_MARK;
use table::made::Table;

// Whether the rows of no class have a bit in common.
fn apart(one: &[u64; 64], other: &[u64; 64]) -> bool
    ensures { IsTrue result ↔ ((i : ℕ) → i < 64 → bit_and (slice_index one.now i) (slice_index other.now i) ≡ 0) }
{
    // Joined and tested once: with `all` over a `zip`, which proves alone, the worst table took a fifth longer.
    let mut common = 0;
    for i in 0..64 {
        common |= one[i] & other[i];
    }
    common == 0
}

// The first clash in the order of productions a and b, kind and classes. A test is asked when two productions of one left side have a
// kind in common. There is room for the answers of N tests. The kinds stand beside their table and not in a struct with it: a ghost field
// holds `Contested` only truncated, and the proof of what was found needs its data. Never inlined, so that the rooms of different sizes and
// domains take no stack beside one another.
#[inline(never)]
pub(crate) fn first_clash<D: Domain, const N: usize>(
    domain: &Testable<'_, D>,
    table: &Table,
    kinds: &[u64; 126],
    tests: &Tests,
) -> Option<Clash>
    requires contested { Contested (grammar table.now.draft) kinds.now }
    requires placed { AllPlaced (grammar table.now.draft) kinds.now tests.now }
    requires room { tests.now.count ≤ N }
    requires size { N ≤ 126 }
    ensures { MatchOption result (ClashFree (D.meaning domain.now.domain.now).classes (grammar table.now.draft)) (FirstClash (D.meaning domain.now.domain.now).classes (grammar table.now.draft)) }
{
    let productions = listed(table);
    let classes = domain.classes();
    let mut answers = Answers::<D, N>::new(domain, tests);
    let mut clash = None;
    // The kinds are read by number, since over a `zip` an invariant has an iterator and cannot name a.
    'search: for (a, first) in productions.iter().enumerate() {
        if kinds[a] == 0 {
            continue;
        }
        // By number: over `enumerate().skip(a + 1)` the proof did not close, since an invariant there cannot name b.
        for b in a + 1..productions.len() {
            let second = &productions[b];
            let common = kinds[a] & kinds[b];
            if common == 0 || first.left != second.left {
                continue;
            }
            if !answers.ask(first.test) {
                break;
            }
            if !answers.ask(second.test) {
                continue;
            }
            let one = answers.rows(first.test);
            let other = answers.rows(second.test);
            if apart(one, other) {
                continue;
            }
            // Nested loops, left by a label at the first clash of all, and no chain: so its five numbers stand in their order.
            for kind in 0..64 {
                if common >> kind & 1 != 1 {
                    continue;
                }
                for inherited in 0..classes {
                    let words = one[inherited as usize] & other[inherited as usize];
                    for word in 0..if kind == END_MARK { 1 } else { classes } {
                        if words >> word & 1 == 1 {
                            clash = Some(Clash {
                                a: a as u8,
                                b: b as u8,
                                kind,
                                inherited,
                                word,
                            });
                            break 'search;
                        }
                    }
                }
            }
        }
    }
    clash
}
