// What a caller fills in to have a table made, and its review.
ghost use Rattle.std.specs.Prelude.{◌≡◌, true, false, length, nat_le, nat_lt, ◌&&◌, if◌then◌else◌, Some, None};
ghost use Rattle.std.specs.List.{list_all};
ghost use Rattle.std.specs.Result.{result_err};

use crate::faults::TableFault;
use crate::kinds::KindSet;
use crate::spellings::{differ, digits_alone, graphic_alone};

// A rule or a check by its number, applied to the values of two slots. All in a draft is told by plain numbers: each rule, check and test
// number means something to a domain, and a kind, nonterminal or slot that does not exist is refused by `review`.
#[derive(Clone, Copy, PartialEq, Eq, Debug)]
pub struct Operation {
    pub number: u8,
    pub first: u8,
    pub second: u8,
}

impl Operation {
    ghost use Rattle.table.specs.Rules.{slots_below};

    // Whether both slots lie below this one.
    fn names_below(self, slot: usize) -> bool
        ensures { result ≡ slots_below slot self }
    {
        usize::from(self.first) < slot && usize::from(self.second) < slot
    }
}

// What stands in a production. Item i, counted from 1, fills slot i; slot 0 holds what the left side inherits.
#[derive(Clone, Copy, PartialEq, Eq, Debug)]
pub enum Item {
    // a word of this kind, whose value fills the slot
    Kind(u8),
    // a nonterminal, with the rule that gives what it inherits; its result fills the slot
    Nonterminal(u8, Operation),
    // a check that has to say yes; its first value fills the slot
    Check(Operation),
}

impl Item {
    ghost use Rattle.table.specs.Rules.{symbol_fits, item_slots_fit};

    // Whether the draft has its kind or nonterminal.
    fn symbol_exists(self, draft: &Draft) -> bool
        ensures { result ≡ symbol_fits draft.now.kinds draft.now.nonterminals self }
    {
        match self {
            Item::Kind(kind) => kind < draft.kinds,
            Item::Nonterminal(nonterminal, _) => nonterminal < draft.nonterminals,
            Item::Check(_) => true,
        }
    }

    // Whether it names only slots below this one.
    fn names_below(self, slot: usize) -> bool
        ensures { result ≡ item_slots_fit slot self }
    {
        match self {
            Item::Kind(_) => true,
            Item::Nonterminal(_, operation) | Item::Check(operation) => operation.names_below(slot),
        }
    }
}

// What a nonterminal may stand for.
#[derive(Drop)]
pub struct Production {
    // the nonterminal that it derives
    pub left: u8,
    // the test that has to say yes at the classes of the inherited value and of the word in sight
    pub test: u8,
    // the sight set: the kinds in sight of which it may be predicted
    pub sight: KindSet,
    pub items: Vec<Item>,
    // the rule that gives the left side's value
    pub result: Operation,
}

impl Production {
    ghost use Rattle.table.specs.Rules.{symbol_fits, run_slots_fit, slots_fit, items};

    // Whether the draft has the kinds and nonterminals of the items.
    fn symbols_exist(&self, draft: &Draft) -> bool
        ensures { result ≡ list_all (symbol_fits draft.now.kinds draft.now.nonterminals) (items self.now) }
    {
        self.items.iter().all(|item| item.symbol_exists(draft))
    }

    // Whether each item names only slots below the one that it fills.
    fn items_name_earlier_slots(&self) -> bool
        ensures { result ≡ run_slots_fit (items self.now) }
    {
        self.items
            .iter()
            .enumerate()
            .all(|(i, item)| item.names_below(i + 1))
    }

    // Whether the items name only earlier slots, and the result only slots that are filled.
    fn slots_fit(&self) -> bool
        ensures { result ≡ slots_fit self.now }
    {
        self.items_name_earlier_slots() && self.result.names_below(self.items.len() + 1)
    }
}

// A word that stands for a kind and a number.
#[derive(Drop)]
pub struct Spelling {
    pub kind: u8,
    pub number: u16,
    pub letters: Vec<u8>,
}

impl Spelling {
    ghost use Rattle.table.specs.Spellings.{lettered};

    // Whether there are 1 to 12 letters, from 33 to 126, not digits alone.
    fn is_lettered(&self) -> bool
        ensures { result ≡ lettered self.now }
    {
        let letters = self.letters.as_slice();
        (1..=12).contains(&letters.len()) && graphic_alone(letters) && !digits_alone(letters)
    }
}

// A table before it is reviewed.
#[derive(Drop)]
pub struct Draft {
    pub nonterminals: u8,
    pub kinds: u8,
    pub productions: Vec<Production>,
    pub spellings: Vec<Spelling>,
}

impl Draft {
    ghost use Rattle.table.specs.Rules.{counts_fit, symbol_fits, items, slots_fit, productions, spellings, derived, all_derived, table_fault};
    ghost use Rattle.table.specs.Spellings.{lettered};

    // The lowest refusal whose rule the draft breaks, if it breaks one.
    #[tactic(auto, unfolding(crate::specs::Rules::kept))]
    pub fn review(&self) -> Result<(), TableFault>
        ensures { result_err result ≡ table_fault self.now }
    {
        unless(self.counts_fit(), TableFault::CountOutside)?;
        unless(self.left_sides_exist(), TableFault::NoLeftSide)?;
        unless(self.items_are_few(), TableFault::TooManyItems)?;
        unless(self.symbols_exist(), TableFault::NoSymbol)?;
        unless(self.slots_fit(), TableFault::NoSlot)?;
        unless(self.letters_fit(), TableFault::BadLetters)?;
        unless(self.all_derived(), TableFault::NoProduction)?;
        unless(
            self.spelled_kinds_exist() && differ(&self.spellings),
            TableFault::BadSpelling,
        )
    }

    // Whether each count is within its range.
    fn counts_fit(&self) -> bool
        ensures { result ≡ counts_fit self.now }
    {
        (1..=64).contains(&self.nonterminals)
            && (1..=63).contains(&self.kinds)
            && (1..=126).contains(&self.productions.len())
            && self.spellings.len() <= 248
    }

    // Whether each left side is one of the nonterminals. A function to each chain, here and below, since the proof stays open where a chain
    // stands within `&&`.
    fn left_sides_exist(&self) -> bool
        ensures { result ≡ list_all (λ p. nat_lt p.left self.now.nonterminals) (productions self.now) }
    {
        self.productions
            .iter()
            .all(|production| production.left < self.nonterminals)
    }

    // Whether each production has at most eight items.
    fn items_are_few(&self) -> bool
        ensures { result ≡ list_all (λ p. nat_le (length (items p)) 8) (productions self.now) }
    {
        self.productions
            .iter()
            .all(|production| production.items.len() <= 8)
    }

    // Whether the kinds and nonterminals of all items exist.
    fn symbols_exist(&self) -> bool
        ensures { result ≡ list_all (λ p. list_all (symbol_fits self.now.kinds self.now.nonterminals) (items p)) (productions self.now) }
    {
        self.productions
            .iter()
            .all(|production| production.symbols_exist(self))
    }

    // Whether all productions name only slots that they may.
    fn slots_fit(&self) -> bool
        ensures { result ≡ list_all slots_fit (productions self.now) }
    {
        self.productions
            .iter()
            .all(|production| production.slots_fit())
    }

    // Whether the letters of all spellings fit.
    fn letters_fit(&self) -> bool
        ensures { result ≡ list_all lettered (spellings self.now) }
    {
        self.spellings.iter().all(|spelling| spelling.is_lettered())
    }

    // Whether some production has this left side.
    fn derives(&self, nonterminal: u8) -> bool
        ensures { result ≡ derived (productions self.now) nonterminal }
    {
        self.productions
            .iter()
            .any(|production| production.left == nonterminal)
    }

    // Whether each nonterminal is some left side.
    fn all_derived(&self) -> bool
        ensures { result ≡ all_derived self.now.nonterminals (productions self.now) }
    {
        (0..self.nonterminals).all(|nonterminal| self.derives(nonterminal))
    }

    // Whether each spelling's kind is that of a spelled word.
    fn spelled_kinds_exist(&self) -> bool
        ensures { result ≡ list_all (λ s. nat_lt 0 s.kind && nat_lt s.kind self.now.kinds) (spellings self.now) }
    {
        self.spellings
            .iter()
            .all(|spelling| (1..self.kinds).contains(&spelling.kind))
    }
}

// The refusal, unless its rule is kept.
fn unless(kept: bool, fault: TableFault) -> Result<(), TableFault>
    ensures { result_err result ≡ (if kept then None else Some fault) }
{
    if kept { Ok(()) } else { Err(fault) }
}
