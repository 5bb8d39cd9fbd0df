// The line that tells what came of a sheet.
ghost use Rattle.std.specs.Prelude.{◌≡◌, ℕ, List, Some, IfOk, Result, vec_items};
ghost use Rattle.std.specs.Result.{result_map_both};
ghost use Rattle.table.specs.Rules.{spellings};
ghost use Rattle.sheet.specs.declared.faults.Denial.{Denial};
ghost use Rattle.sheet.specs.Kinds.{sheet_kinds};
ghost use Rattle.held.specs.Lines.{told_line};

use domain::Domain;
use sheet::faults::Denial;
use sheet::kinds::{KindsError, kinds};
use std::alloc::{AllocError, Global};
use std::fmt;
use std::marker::Model;
use table::made::Table;

// What came of a sheet: the kinds of its words, or where it is denied. Clauses see it as that result.
#[derive(Debug, Drop)]
pub struct SheetLine(Result<Vec<u8>, Denial>);

impl Model for SheetLine {
    ghost Value = { Result (List ℕ) Denial };

    ghost view = { λ l. result_map_both vec_items (λ denial. denial) l.0 };
}

impl SheetLine {
    // What comes of the sheet with this table and domain.
    pub fn of<D: Domain>(
        text: &[u8],
        table: &Table,
        domain: &D,
        heap: Global,
    ) -> Result<SheetLine, AllocError>
        ensures { IfOk result (λ l. l ≡ sheet_kinds (D.meaning domain.now) (spellings table.now.draft) text.now) }
    {
        match kinds(text, table, domain, heap) {
            Ok(kinds) => Ok(SheetLine(Ok(kinds))),
            Err(KindsError::Denied(denial)) => Ok(SheetLine(Err(denial))),
            Err(KindsError::NoMemory) => Err(AllocError),
        }
    }
}

// As `words 1 1 2 3 2`, or the denial's line.
impl fmt::Display for SheetLine {
    ghost output = { λ l. Some (told_line l) };

    fn fmt<W: fmt::Write>(&self, f: &mut fmt::Formatter<W>) -> fmt::Result {
        match &self.0 {
            Ok(kinds) => {
                f.write_str("words")?;
                for kind in kinds {
                    write!(f, " {kind}")?;
                }
                Ok(())
            }
            Err(denial) => denial.fmt(f),
        }
    }
}
