// Which nonterminals can be empty, and their First sets.
ghost use Rattle.std.specs.Prelude.{◌≡◌};
ghost use Rattle.table.specs.Grammar.{plain};
ghost use Rattle.sets.specs.Bounds.{SmallProduction};
ghost use Rattle.sets.specs.Rounds.{Grown, follow_alone, with_first};
ghost use Rattle.sets.specs.Rules.{EmptyRule, FirstRule};
ghost use Rattle.sets.specs.Words.{held};

use crate::found::listed;
use crate::rounds::Rule;
use crate::words::{Known, SetWords};
use table::drafts::Production;
use table::made::Table;

// The rules of Empty and First.
pub(crate) struct Firsts;

impl Rule for Firsts {
    ghost Met = { λ s p. EmptyRule s p × FirstRule s p };

    ghost others = { follow_alone };

    // From the last production to the first, since a table mostly names a nonterminal before it tells what it is.
    fn round(sets: &mut SetWords, table: &Table) -> bool {
        let mut grown = false;
        for production in listed(table).iter().rev() {
            grown |= sets.add_first(production);
        }
        grown
    }
}

impl SetWords {
    // Adds what the rules of Empty and First give at the production, and tells whether that was new.
    // Why it asks for a small production: see `listed`.
    fn add_first(&mut self, production: &Production) -> bool
        requires { SmallProduction (plain production.now) }
        ensures added { held self.new ≡ with_first (held self.old) production.now.left production.now.items.items }
        ensures grown { Grown result self.old self.new }
    {
        let run = self.run(&production.items);
        let left = production.left as usize;
        let before = self.nonterminals[left];
        let after = Known {
            empty: before.empty | run.empty,
            first: before.first | run.kinds,
            ..before
        };
        self.nonterminals[left] = after;
        after != before
    }
}
