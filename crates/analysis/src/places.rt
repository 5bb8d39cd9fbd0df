// The tests of productions that can clash, each with a place.
ghost use Rattle.std.specs.Prelude.{◌≡◌, ℕ, ◌+◌, ◌<◌, ◌≤◌, Some, None, slice_index_or};
ghost use Rattle.table.specs.Grammar.{grammar};

use sets::found::listed;
use table::made::Table;

// Where among `count` places a test stands, for each that has a place; no two stand at one. An array and no map, since the strong test may
// not fail for want of memory.
#[derive(Drop)]
pub(crate) struct Tests {
    pub(crate) count: u8,
    pub(crate) places: [Option<u8>; 256],
    ghost below: { (test place : ℕ) → slice_index_or places test None ≡ Some place → place < count },
    ghost own: { (test other place : ℕ) → slice_index_or places test None ≡ Some place → slice_index_or places other None ≡ Some place → test ≡ other },
}

impl Tests {
    ghost use Rattle.analysis.specs.Places.{Placed, AllPlaced};

    // No test has a place.
    pub(crate) fn none() -> Tests
        ensures { result.count ≡ 0 }
    {
        Tests {
            count: 0,
            places: [None; 256],
        }
    }

    // Gives the test a place, unless it has one.
    fn place(&mut self, test: u8)
        requires { self.old.count < 126 }
        ensures more { self.new.count ≤ self.old.count + 1 }
        ensures placed { Placed self.new test }
        ensures kept { (other : ℕ) → Placed self.old other → Placed self.new other }
    {
        if self.places[test as usize].is_none() {
            self.places[test as usize] = Some(self.count);
            self.count += 1;
        }
    }

    // Gives places to the tests of the productions that have a kind. They are placed where they stand, since a function that gives them back
    // copies them.
    pub(crate) fn place_all(&mut self, table: &Table, kinds: &[u64; 126])
        requires { self.old.count ≡ 0 }
        ensures { AllPlaced (grammar table.now.draft) kinds.now self.new }
    {
        let productions = listed(table);
        // The kinds are read by number: over `zip(kinds)` the proof did not close, since an invariant there has an iterator and cannot name n.
        for (n, production) in productions.iter().enumerate() {
            if kinds[n] != 0 {
                self.place(production.test);
            }
        }
    }
}
