// The table that the program holds: WHEN order, PARK, or WHEN order ELSE order.
ghost use Rattle.std.specs.Prelude.{◌≡◌, IfOk};
ghost use Rattle.held.specs.declared.drafts.TheConstants.{INHERIT};
ghost use Rattle.held.specs.Held.{Held, entry, spelt};

use std::alloc::{AllocError, Global};
use table::drafts::{Draft, Item, Operation, Production, Spelling};
use table::kinds::KindSet;

// The nonterminal of an order.
const ORDER: u8 = 0;

// The nonterminal of what stands after the order of a WHEN: ELSE and an order, or nothing.
const REST: u8 = 1;

// The kinds of the three words. Kind 0, the number word, stands in no production.
const WHEN: u8 = 1;

const PARK: u8 = 2;

const ELSE: u8 = 3;

// The rule that hands on what is inherited.
const INHERIT: Operation = Operation {
    number: 0,
    first: 0,
    second: 0,
};

// A production with no test, whose left side gets what it inherits.
fn production(left: u8, sight: KindSet, items: Vec<Item>) -> Production
    ensures { result ≡ record { left = left; test = 0; sight = sight; items = items; result = INHERIT } }
{
    Production {
        left,
        test: 0,
        sight,
        items,
        result: INHERIT,
    }
}

// Letters that stand for a kind and the number 0.
fn spelling(heap: Global, kind: u8, letters: &[u8]) -> Result<Spelling, AllocError>
    ensures { IfOk result (λ s. entry s ≡ spelt kind letters.now) }
{
    Ok(Spelling {
        kind,
        number: 0,
        letters: letters.to_vec(heap)?,
    })
}

// The draft of the table that the program holds.
pub fn held_draft(heap: Global) -> Result<Draft, AllocError>
    ensures { IfOk result Held }
{
    let full = KindSet::full();
    let order = Item::Nonterminal(ORDER, INHERIT);
    let rest = Item::Nonterminal(REST, INHERIT);
    let productions = vec![in heap;
        production(ORDER, full, vec![in heap; Item::Kind(WHEN), order, rest]?),
        production(ORDER, full, vec![in heap; Item::Kind(PARK)]?),
        production(REST, full, vec![in heap; Item::Kind(ELSE), order]?),
        production(REST, full.without(ELSE), Vec::new(heap)),
    ]?;
    let spellings = vec![in heap;
        spelling(heap, WHEN, b"WHEN")?,
        spelling(heap, PARK, b"PARK")?,
        spelling(heap, ELSE, b"ELSE")?,
    ]?;
    Ok(Draft {
        nonterminals: 2,
        kinds: 4,
        productions,
        spellings,
    })
}
