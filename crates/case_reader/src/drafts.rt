// Drafts of tables as cases write them.
ghost use Rattle.std.specs.Prelude.{◌≡◌, [], IfOk};

use crate::faults::CaseError;
use crate::numbers::{CaseNumbers, Numbers};
use crate::own_errors::OwnErrors;
use std::alloc::Global;
use table::drafts::{Draft, Item, Operation, Production};
use table::kinds::KindSet;

fn read_operation<N: CaseNumbers>(from: &mut N) -> Result<Operation, CaseError> {
    Ok(Operation {
        number: from.byte()?,
        first: from.byte()?,
        second: from.byte()?,
    })
}

fn read_item<N: CaseNumbers>(from: &mut N) -> Result<Item, CaseError> {
    match from.choice()? {
        1 => Ok(Item::Kind(from.byte()?)),
        2 => Ok(Item::Nonterminal(from.byte()?, read_operation(from)?)),
        3 => Ok(Item::Check(read_operation(from)?)),
        _ => Err(CaseError::NoItem),
    }
}

fn read_production<N: CaseNumbers>(heap: Global, from: &mut N) -> Result<Production, CaseError> {
    let left = from.byte()?;
    let test = from.byte()?;
    let sight = KindSet::from(from.long()?);
    let result = read_operation(from)?;
    let count = from.count()?;
    let items = (0..count).map(|_| read_item(from)).try_collect(heap)?;
    Ok(Production {
        left,
        test,
        sight,
        items,
        result,
    })
}

// A draft without spellings.
pub fn read_draft<N: Numbers>(heap: Global, from: &mut N) -> anyhow::Result<Draft>
    ensures { IfOk result (λ draft. draft.spellings.items ≡ []) }
{
    let mut numbers = OwnErrors::of(from);
    read_case_draft(heap, &mut numbers).map_err(|error| numbers.why(error))
}

// The same, from numbers with small errors.
pub fn read_case_draft<N: CaseNumbers>(heap: Global, from: &mut N) -> Result<Draft, CaseError>
    ensures { IfOk result (λ draft. draft.spellings.items ≡ []) }
{
    let nonterminals = from.byte()?;
    let kinds = from.byte()?;
    let count = from.count()?;
    let productions = (0..count)
        .map(|_| read_production(heap, from))
        .try_collect(heap)?;
    Ok(Draft {
        nonterminals,
        kinds,
        productions,
        spellings: Vec::new(heap),
    })
}
