// The kinds at which productions of one left side can clash: a word of bits for each production, as `write_predicts` writes them, since of
// an array of structs that is lent a caller is not told its length. Arrays, since the test may not fail for want of memory.
ghost use Rattle.table.specs.Grammar.{grammar};
ghost use Rattle.analysis.specs.Contested.{Seen, Shared, Contested};

use sets::found::{listed, write_predicts};
use table::made::Table;

// Writes for each production the kinds of its Predict and sight sets.
fn write_seen(table: &Table, kinds: &mut [u64; 126])
    ensures { Seen (grammar table.now.draft) kinds.new }
{
    write_predicts(table, kinds);
    let productions = listed(table);
    // By number: over `kinds.iter_mut().zip(productions)` the proof did not close, since no invariant can name words that are lent.
    for (n, production) in productions.iter().enumerate() {
        kinds[n] &= u64::from(production.sight);
    }
}

// Adds for each left side the kinds that two of its productions have.
#[tactic(auto, using(crate::proofs::Standing::left_small))]
fn add_shared(table: &Table, kinds: &[u64; 126], shared: &mut [u64; 64])
    ensures { Shared (grammar table.now.draft) kinds.now shared.new }
{
    let productions = listed(table);
    let mut once = [0; 64];
    // The kinds are read by number, since over a `zip` an invariant has an iterator and cannot name n.
    for (n, production) in productions.iter().enumerate() {
        let left = production.left as usize;
        shared[left] |= once[left] & kinds[n];
        once[left] |= kinds[n];
    }
}

// Writes for each production the kinds of its Predict and sight sets that another of its left side has too: at others it cannot clash.
#[tactic(auto, using(crate::proofs::Standing::left_small))]
pub(crate) fn write_contested(table: &Table, kinds: &mut [u64; 126])
    ensures { Contested (grammar table.now.draft) kinds.new }
{
    write_seen(table, kinds);
    let mut shared = [0; 64];
    add_shared(table, kinds, &mut shared);
    // By number, as in `write_seen`.
    let productions = listed(table);
    for (n, production) in productions.iter().enumerate() {
        kinds[n] &= shared[production.left as usize];
    }
}
