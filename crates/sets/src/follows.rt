// The Follow sets: what can begin the items after a nonterminal is added once, and what can follow a left side round after round.
ghost use Rattle.std.specs.Prelude.{◌≡◌};
ghost use Rattle.table.specs.Grammar.{grammar, plain};
ghost use Rattle.sets.specs.Bounds.{SmallProduction};
ghost use Rattle.sets.specs.Rounds.{Grown, Sound, firsts_alone, with_follow, from_left};
ghost use Rattle.sets.specs.Rules.{run_inside, Everywhere, InsideRule, LastRule, Within};
ghost use Rattle.sets.specs.Words.{held};

use crate::found::listed;
use crate::rounds::Rule;
use crate::runs::only;
use crate::words::{Known, SetWords};
use table::drafts::{Item, Production};
use table::kinds::KindSet;
use table::made::Table;

// The rule that what can follow a left side can follow the nonterminals at the end of its items.
pub(crate) struct Lasts;

impl Rule for Lasts {
    ghost Met = { LastRule };

    ghost others = { firsts_alone };

    fn round(sets: &mut SetWords, table: &Table) -> bool {
        let mut grown = false;
        for production in listed(table) {
            grown |= sets.add_last(production);
        }
        grown
    }
}

impl SetWords {
    // Adds what the items after a nonterminal can begin with, at every production.
    pub(crate) fn inside_round(&mut self, table: &Table)
        requires { Sound (grammar table.now.draft) (held self.old) }
        ensures sound { Sound (grammar table.now.draft) (held self.new) }
        ensures inside { Everywhere (grammar table.now.draft) (InsideRule (held self.new)) }
        ensures within { Within (held self.old) (held self.new) }
        ensures others { firsts_alone (held self.new) ≡ firsts_alone (held self.old) }
    {
        for production in listed(table) {
            self.add_inside(production);
        }
    }

    // Adds to the Follow set of each nonterminal of the items what those after it can begin with.
    // Why it asks for a small production: see `listed`.
    fn add_inside(&mut self, production: &Production)
        requires { SmallProduction (plain production.now) }
        ensures { held self.new ≡ with_follow (held self.old) (run_inside (held self.old) production.now.items.items) }
    {
        let mut after = KindSet::none();
        for item in production.items.iter().rev() {
            match *item {
                Item::Kind(kind) => after = only(kind),
                Item::Check(_) => {}
                Item::Nonterminal(a, _) => {
                    let known = self.nonterminals[a as usize];
                    self.nonterminals[a as usize] = Known {
                        follow: known.follow | after,
                        ..known
                    };
                    after = if known.empty {
                        known.first | after
                    } else {
                        known.first
                    };
                }
            }
        }
    }

    // Adds to the Follow set of each nonterminal at the end of the items what can follow the left side, and tells whether that was new.
    // Why it asks for a small production: see `listed`.
    fn add_last(&mut self, production: &Production) -> bool
        requires { SmallProduction (plain production.now) }
        ensures added { held self.new ≡ with_follow (held self.old) (from_left (held self.old) production.now.left production.now.items.items) }
        ensures grown { Grown result self.old self.new }
    {
        let behind = self.nonterminals[production.left as usize].follow;
        let mut grown = false;
        for item in production.items.iter().rev() {
            match *item {
                Item::Kind(_) => break,
                Item::Check(_) => {}
                Item::Nonterminal(a, _) => {
                    let known = self.nonterminals[a as usize];
                    let follow = known.follow | behind;
                    self.nonterminals[a as usize] = Known { follow, ..known };
                    grown |= follow != known.follow;
                    if !known.empty {
                        break;
                    }
                }
            }
        }
        grown
    }
}
