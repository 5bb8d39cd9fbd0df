// Domains whose tests can be asked at all classes.
ghost use Rattle.std.specs.Prelude.{◌≡◌, ℕ, ◌<◌, ◌≤◌, ◌&&◌, nat_lt, false, MatchResult};
ghost use Rattle.table.specs.Kinds.{bit};
ghost use Rattle.analysis.specs.Asked.{Rows, Never};

use crate::faults::CheckFault;
use domain::Domain;

// A domain of up to 64 classes: a word has a bit for each.
#[derive(Drop)]
pub(crate) struct Testable<'a, D: Domain> {
    pub(crate) domain: &'a D,
    ghost few: { (D.meaning domain.now).classes.count ≤ 64 },
}

impl<'a, D: Domain> Testable<'a, D> {
    ghost use Rattle.analysis.specs.Verdict.{TooManyClasses};

    // Refuses a domain of over 64 classes.
    pub(crate) fn of(domain: &'a D) -> Result<Testable<'a, D>, CheckFault>
        ensures { MatchResult result (λ t. t.domain.now ≡ domain.now) (TooManyClasses (D.meaning domain.now).classes) }
    {
        let classes = domain.classes();
        if classes > 64 {
            return Err(CheckFault::ManyClasses { classes });
        }
        Ok(Testable { domain })
    }

    // How many classes there are.
    pub(crate) fn classes(&self) -> u8
        ensures { result ≡ (D.meaning self.now.domain.now).classes.count }
    {
        self.domain.classes() as u8
    }

    // The classes of the word at which the test says yes, for one class of the inherited value: bit j is set for class j.
    fn row(&self, test: u8, inherited: u16) -> u64
        ensures { (j : ℕ) → bit result j ≡ (nat_lt j (D.meaning self.now.domain.now).classes.count && (D.meaning self.now.domain.now).classes.test test inherited j) }
    {
        let mut row = 0;
        // A mark that moves on: with `1 << word`, which needs none, the worst table took longer by half.
        let mut mark = 1;
        for word in 0..self.domain.classes() {
            if self.domain.test(test, inherited, word) {
                row |= mark;
            }
            mark <<= 1;
        }
        row
    }

    // Asks the test at all classes, with a row for each class of the inherited value. `false`: it never says yes. No Option of rows, since an
    // array that is given back is copied.
    pub(crate) fn ask(&self, test: u8, rows: &mut [u64; 64]) -> bool
        ensures rows { Rows (D.meaning self.now.domain.now).classes test rows.new }
        ensures never { result ≡ false → Never (D.meaning self.now.domain.now).classes test }
    {
        let mut all = 0;
        // By number: of rows that are lent by `iter_mut` nothing is proved once they are given back.
        for inherited in 0..self.domain.classes() {
            let row = self.row(test, inherited);
            rows[inherited as usize] = row;
            all |= row;
        }
        all != 0
    }
}
