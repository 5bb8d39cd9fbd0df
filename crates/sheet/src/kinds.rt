// The kinds of a sheet's words.
ghost use Rattle.std.specs.Prelude.{◌≡◌, Ok, Err};
ghost use Rattle.table.specs.Rules.{spellings};
ghost use Rattle.sheet.specs.declared.kinds.KindsError.TheVariants.{Denied, NoMemory};
ghost use Rattle.sheet.specs.Kinds.{Told, sheet_kinds};

use crate::faults::Denial;
use crate::tokens::tokenize;
use domain::Domain;
use std::alloc::{AllocFailed, Global};
use table::made::Table;
use text::cursor::Cursor;
use text::lexemes::check_length;

// Why the kinds were not told.
#[derive(Clone, Copy, PartialEq, Eq, Debug)]
pub enum KindsError {
    Denied(Denial),
    NoMemory,
}

impl From<Denial> for KindsError {
    ghost from_gives = { λ denial r. r ≡ Denied denial };

    fn from(denial: Denial) -> KindsError {
        KindsError::Denied(denial)
    }
}

impl From<AllocFailed<u8>> for KindsError {
    ghost from_gives = { λ _ r. r ≡ NoMemory };

    fn from(_: AllocFailed<u8>) -> KindsError {
        KindsError::NoMemory
    }
}

// The kinds of the text's words in the table, in order, or the first word's fault.
pub fn kinds<D: Domain>(
    text: &[u8],
    table: &Table,
    domain: &D,
    heap: Global,
) -> Result<Vec<u8>, KindsError>
    ensures { Told (sheet_kinds (D.meaning domain.now) (spellings table.now.draft) text.now) result }
{
    check_length(text).map_err(|fault| Denial {
        fault: fault.into(),
        byte: 0,
        word: 0,
    })?;
    let mut kinds = Vec::new(heap);
    let mut cursor = Cursor::new(text);
    while let Some(word) = cursor.next() {
        // asked before the closure, since the proof stays open where the closure asks
        let byte = word.place();
        let number = cursor.count();
        let token = tokenize(&word, table, domain).map_err(|fault| Denial {
            fault,
            byte,
            word: number,
        })?;
        kinds.push(token.kind)?;
    }
    Ok(kinds)
}
