// The productions of a made table, and their Predict sets.
ghost use Rattle.std.specs.Prelude.{◌≡◌, ℕ, ◌≤◌, map, length, slice_index};
ghost use Rattle.table.specs.Grammar.{grammar, plain};
ghost use Rattle.sets.specs.Bounds.{Small};
ghost use Rattle.sets.specs.Words.{Predicted};

use crate::words::SetWords;
use table::drafts::Production;
use table::made::Table;

// The productions of the table. That their kinds and nonterminals are below 64 is told here, and required at each step: a struct that
// knows it of one production would have to be made anew in each loop.
pub fn listed(table: &Table) -> &[Production]
    ensures value { result.now ≡ table.now.draft.productions.items }
    ensures few { length result.now ≤ 126 }
    ensures small { Small (map plain result.now) }
{
    &table.draft().productions
}

// Writes the Predict set of each production of the table into its word; the words past the last production stay. The sets are found where
// they stand, since a function that gives them back copies them.
pub fn write_predicts(table: &Table, words: &mut [u64; 126])
    ensures written { Predicted (grammar table.now.draft) words.new }
    ensures kept { (n : ℕ) → length (grammar table.now.draft) ≤ n → slice_index words.new n ≡ slice_index words.old n }
{
    let mut sets = SetWords::start();
    sets.find(table);
    // By index: of words that are lent by `iter_mut().zip(..)` nothing is proved once they are given back.
    for (n, production) in listed(table).iter().enumerate() {
        words[n] = u64::from(sets.predict(production));
    }
}
