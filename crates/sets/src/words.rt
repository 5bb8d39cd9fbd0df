// What is known of the nonterminals of a table, and the Predict sets of its productions.
ghost use Rattle.std.specs.Prelude.{◌≡◌, ℕ, ◌≤◌, length, slice_index, slice_index_or};
ghost use Rattle.table.specs.Grammar.{grammar, plain};
ghost use Rattle.table.specs.Kinds.{bit, has};
ghost use Rattle.sets.specs.Bounds.{SmallProduction};
ghost use Rattle.sets.specs.Rounds.{beginning};
ghost use Rattle.sets.specs.Rules.{Defined, Smallest};
ghost use Rattle.sets.specs.Words.{held, nothing, run_predict, Predicted};

use crate::firsts::Firsts;
use crate::follows::Lasts;
use crate::found::write_predicts;
use crate::runs::only;
use table::drafts::Production;
use table::kinds::{END_MARK, KindSet};
use table::made::Table;

// What is known of a nonterminal: whether it can be empty, and its First and Follow sets. No Option, as in `Run`: the sets count whether it
// can be empty or not.
#[derive(Clone, Copy, PartialEq, Eq)]
pub(crate) struct Known {
    pub(crate) empty: bool,
    pub(crate) first: KindSet,
    pub(crate) follow: KindSet,
}

// The sets of a table: what is known of each nonterminal. An array, since the strong test may not fail for want of memory.
#[derive(Clone, Copy)]
pub struct SetWords {
    pub(crate) nonterminals: [Known; 64],
}

impl Known {
    // What is known of a nonterminal before the first round.
    fn nothing() -> Known
        ensures { result ≡ nothing }
    {
        Known {
            empty: false,
            first: KindSet::none(),
            follow: KindSet::none(),
        }
    }
}

impl SetWords {
    // What is known before the first round: Follow of nonterminal 0 holds the end mark.
    pub(crate) fn start() -> SetWords
        ensures { held result ≡ beginning }
    {
        let nothing = Known::nothing();
        let mut sets = SetWords {
            nonterminals: [nothing; 64],
        };
        sets.nonterminals[0] = Known {
            follow: only(END_MARK),
            ..nothing
        };
        sets
    }

    // Finds the sets of the table, from what is known before the first round.
    pub(crate) fn find(&mut self, table: &Table)
        requires { held self.old ≡ beginning }
        ensures defined { Defined (grammar table.now.draft) (held self.new) }
        ensures smallest { Smallest (grammar table.now.draft) (held self.new) }
    {
        self.settle::<Firsts>(table);
        self.inside_round(table);
        self.settle::<Lasts>(table);
    }

    // The sets of the table, the smallest that meet their rules.
    pub fn of(table: &Table) -> SetWords
        ensures defined { Defined (grammar table.now.draft) (held result) }
        ensures smallest { Smallest (grammar table.now.draft) (held result) }
    {
        let mut sets = SetWords::start();
        sets.find(table);
        sets
    }

    // What is known of the nonterminal; of one past the last, nothing.
    fn known(&self, nonterminal: u8) -> Known
        ensures { result ≡ slice_index_or self.now.nonterminals nonterminal nothing }
    {
        self.nonterminals
            .get(usize::from(nonterminal))
            .copied()
            .unwrap_or(Known::nothing())
    }

    // Whether the nonterminal can be empty.
    pub fn can_be_empty(&self, nonterminal: u8) -> bool
        ensures { result ≡ (held self.now).empty nonterminal }
    {
        self.known(nonterminal).empty
    }

    // The kinds that the nonterminal can begin with.
    pub fn first(&self, nonterminal: u8) -> KindSet
        ensures { (k : ℕ) → has result k ≡ (held self.now).first nonterminal k }
    {
        self.known(nonterminal).first
    }

    // The kinds that can follow the nonterminal, the end mark among them.
    pub fn follow(&self, nonterminal: u8) -> KindSet
        ensures { (k : ℕ) → has result k ≡ (held self.now).follow nonterminal k }
    {
        self.known(nonterminal).follow
    }

    // The kinds in sight of which the production may be the one to predict.
    // Why it asks for a small production: see `listed`.
    pub(crate) fn predict(&self, production: &Production) -> KindSet
        requires { SmallProduction (plain production.now) }
        ensures { (k : ℕ) → has result k ≡ run_predict (held self.now) (plain production.now) k }
    {
        let run = self.run(&production.items);
        if run.empty {
            run.kinds | self.nonterminals[production.left as usize].follow
        } else {
            run.kinds
        }
    }
}

// The Predict set of each production, as a word whose bit k stands for kind k. Words and no KindSets: a caller that lends an array of
// structs is not told that it comes back as long as it was.
#[derive(Clone, Copy)]
pub struct PredictWords {
    pub(crate) words: [u64; 126],
}

impl PredictWords {
    // The Predict sets of the table's productions; past the last production, none.
    pub fn of(table: &Table) -> PredictWords
        ensures predicted { Predicted (grammar table.now.draft) result.words }
        ensures past { (n : ℕ) → length (grammar table.now.draft) ≤ n → slice_index result.words n ≡ 0 }
    {
        let mut words = [0; 126];
        write_predicts(table, &mut words);
        PredictWords { words }
    }

    // The Predict set of production n.
    pub fn get(&self, n: u8) -> KindSet
        ensures { (k : ℕ) → has result k ≡ bit (slice_index self.now.words n) k }
    {
        KindSet::from(self.words.get(usize::from(n)).copied().unwrap_or(0))
    }
}
