// What tests say at all classes, each asked when it is first wanted.
ghost use Rattle.std.specs.Prelude.{◌≡◌, ℕ, ◌≤◌, true, false, length};
ghost use Rattle.analysis.specs.Asked.{Rows, Never};
ghost use Rattle.analysis.specs.Places.{Placed};
ghost use Rattle.analysis.specs.Answers.{AllKnown, Told};

use crate::places::Tests;
use crate::testable::Testable;
use domain::Domain;

// What is known of each test that has a place, at that place: nothing before it is asked, and then whether it ever says yes, and its
// rows. Arrays, since the strong test may not fail for want of memory; two, since they are cleared faster than one of pairs, with which a
// table of many tests took a quarter longer.
#[derive(Drop)]
pub(crate) struct Answers<'a, D: Domain, const N: usize> {
    pub(crate) domain: &'a Testable<'a, D>,
    pub(crate) tests: &'a Tests,
    pub(crate) ever: [Option<bool>; N],
    pub(crate) rows: [[u64; 64]; N],
    ghost room: { tests.now.count ≤ length ever },
    ghost same_room: { tests.now.count ≤ length rows },
    ghost known: { AllKnown (D.meaning domain.now.domain.now).classes tests.now.places ever rows },
}

impl<'a, D: Domain, const N: usize> Answers<'a, D, N> {
    // No test is asked yet.
    pub(crate) fn new(domain: &'a Testable<'a, D>, tests: &'a Tests) -> Answers<'a, D, N>
        requires { tests.now.count ≤ N }
        ensures domain { result.domain.now ≡ domain.now }
        ensures tests { result.tests.now ≡ tests.now }
    {
        Answers {
            domain,
            tests,
            ever: [None; N],
            rows: [[0; 64]; N],
        }
    }

    // Whether the test says yes at any classes. It is asked unless it was before. No Option of rows: see `Testable::ask`.
    pub(crate) fn ask(&mut self, test: u8) -> bool
        requires { Placed self.old.tests.now test }
        ensures never { result ≡ false → Never (D.meaning self.new.domain.now.domain.now).classes test }
        ensures told { result ≡ true → Told self.new.tests.now.places self.new.ever test }
        ensures kept { (other : ℕ) → Told self.old.tests.now.places self.old.ever other → Told self.new.tests.now.places self.new.ever other }
        ensures domain { self.new.domain.now ≡ self.old.domain.now }
        ensures tests { self.new.tests.now ≡ self.old.tests.now }
    {
        let place = self.tests.places[test as usize].unwrap() as usize;
        match self.ever[place] {
            Some(ever) => ever,
            None => {
                let ever = self.domain.ask(test, &mut self.rows[place]);
                self.ever[place] = Some(ever);
                ever
            }
        }
    }

    // The rows of a test that says yes somewhere.
    pub(crate) fn rows(&self, test: u8) -> &[u64; 64]
        requires { Told self.now.tests.now.places self.now.ever test }
        ensures { Rows (D.meaning self.now.domain.now.domain.now).classes test result.now }
    {
        let place = self.tests.places[test as usize].unwrap() as usize;
        &self.rows[place]
    }
}
