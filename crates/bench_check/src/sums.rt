// A domain with many tests that keep productions apart.
ghost use Rattle.bench_check.specs.Sums.{sums, sums_lawful};

use domain::Domain;

// Values are their classes, 64 of them, and test n says yes where two classes add up to n - 1: each test from 1 to 127 says yes
// somewhere, and no two of them say yes together.
#[derive(Clone, Copy)]
pub(crate) struct Sums;

impl Domain for Sums {
    type Value = u8;

    ghost meaning = { λ _. sums };

    ghost lawful = { λ _. sums_lawful };

    fn classes(&self) -> u16 {
        64
    }

    fn opening(&self) -> u8 {
        0
    }

    fn class(&self, value: u8) -> u16 {
        u16::from(value % 64)
    }

    fn rule(&self, _number: u8, first: u8, _second: u8) -> u8 {
        first
    }

    fn check(&self, _number: u8, _first: u8, _second: u8) -> bool {
        true
    }

    fn test(&self, number: u8, inherited: u16, word: u16) -> bool {
        number == 0 || u32::from(inherited) + u32::from(word) + 1 == u32::from(number)
    }

    fn number(&self, _number: u16) -> Option<u8> {
        None
    }
}
