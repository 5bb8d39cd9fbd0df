// What a run of items can begin with.
ghost use Rattle.std.specs.Prelude.{◌≡◌, ◌==◌, ℕ, ◌<◌};
ghost use Rattle.std.specs.List.{AllByRecursion};
ghost use Rattle.table.specs.Kinds.{has};
ghost use Rattle.sets.specs.Bounds.{SmallItem};
ghost use Rattle.sets.specs.Words.{held, Tells};

use crate::words::SetWords;
use table::drafts::Item;
use table::kinds::KindSet;

// What a run of items can begin with, and whether it can be empty. No Option: the kinds count whether it can be empty or not.
#[derive(Clone, Copy)]
pub(crate) struct Run {
    pub(crate) kinds: KindSet,
    pub(crate) empty: bool,
}

// The set of one kind. `table` does not offer it: it asks for a kind below 64, and of public calls only `make` and `pass` ask for anything.
#[tactic(auto, using(table::proofs::Bits::bit_shl))]
pub(crate) fn only(kind: u8) -> KindSet
    requires { kind < 64 }
    ensures { (k : ℕ) → has result k ≡ (kind == k) }
{
    KindSet::from(1 << kind)
}

impl SetWords {
    // What the items can begin with, and whether they can all be empty, as far as the sets know.
    pub(crate) fn run(&self, items: &[Item]) -> Run
        requires { AllByRecursion SmallItem items.now }
        ensures { Tells (held self.now) items.now result }
    {
        let mut kinds = KindSet::none();
        for item in items {
            match *item {
                Item::Kind(kind) => {
                    return Run {
                        kinds: kinds | only(kind),
                        empty: false,
                    };
                }
                Item::Check(_) => {}
                Item::Nonterminal(a, _) => {
                    let known = self.nonterminals[a as usize];
                    kinds |= known.first;
                    if !known.empty {
                        return Run {
                            kinds,
                            empty: false,
                        };
                    }
                }
            }
        }
        Run { kinds, empty: true }
    }
}
