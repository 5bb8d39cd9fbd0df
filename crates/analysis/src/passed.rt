// Tables that have passed the strong test.
ghost use Rattle.std.specs.Prelude.{◌≡◌, ℕ, ◌≤◌, length, slice_index};
ghost use Rattle.table.specs.Grammar.{grammar};
ghost use Rattle.sets.specs.Words.{Predicted};
ghost use Rattle.analysis.specs.Verdict.{Passes};

use domain::Domain;
use sets::words::PredictWords;
use table::made::Table;

// A passed table: it keeps its domain, and its Predict sets. That no two productions clash is what `pass` requires, and no field: it would
// ask `D: Domain` of whoever names the type.
#[derive(Drop)]
pub struct Passed<D> {
    pub(crate) table: Table,
    pub(crate) domain: D,
    pub(crate) predicts: PredictWords,
    ghost right: { ∥ Predicted (grammar table.draft) predicts.words ∥₁ },
}

// The passed table of a table and a domain that `check` found nothing against.
pub fn pass<D: Domain>(table: Table, domain: D) -> Passed<D>
    requires { Passes (D.meaning domain).classes (grammar table.draft) }
    ensures table { result.table ≡ table }
    ensures domain { result.domain ≡ domain }
    ensures predicts { Predicted (grammar table.draft) result.predicts.words }
    ensures past { (n : ℕ) → length (grammar table.draft) ≤ n → slice_index result.predicts.words n ≡ 0 }
{
    let predicts = PredictWords::of(&table);
    Passed {
        table,
        domain,
        predicts,
    }
}

impl<D> Passed<D> {
    pub fn table(&self) -> &Table
        ensures { result.now ≡ self.now.table }
    {
        &self.table
    }

    pub fn domain(&self) -> &D
        ensures { result.now ≡ self.now.domain }
    {
        &self.domain
    }

    // The Predict sets of the table's productions.
    pub fn predicts(&self) -> &PredictWords
        ensures { result.now ≡ self.now.predicts }
    {
        &self.predicts
    }

    // Gives table and domain back.
    pub fn into_parts(self) -> (Table, D)
        ensures { result ≡ (self.table, self.domain) }
    {
        let Passed {
            table,
            domain,
            predicts: _,
        } = self;
        (table, domain)
    }
}
