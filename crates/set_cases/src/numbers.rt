// The numbers of a line, one after the other.
use anyhow::ensure;
use case_reader::faults::CaseError;
use case_reader::numbers::CaseNumbers;
use std::alloc::Global;
use std::slice::Iter;

// The decimal numbers of the line, with single spaces between.
pub(crate) fn numbers(heap: Global, line: &str) -> Result<Vec<u64>, CaseError> {
    line.split(' ')
        .map(|digits| digits.parse::<u64>().map_err(CaseError::BadDigits))
        .try_collect(heap)
}

// Numbers of a line that are still to be read.
#[derive(Drop)]
pub(crate) struct Line<'a> {
    numbers: Iter<'a, u64>,
}

impl<'a> Line<'a> {
    pub(crate) fn new(numbers: &'a [u64]) -> Line<'a> {
        Line {
            numbers: numbers.iter(),
        }
    }

    // Nothing may be left.
    pub(crate) fn end(&self) -> anyhow::Result<()> {
        ensure!(
            self.numbers.as_slice().is_empty(),
            "the line goes on too long"
        );
        Ok(())
    }
}

impl CaseNumbers for Line<'_> {
    fn long(&mut self) -> Result<u64, CaseError> {
        self.numbers.next().copied().ok_or(CaseError::EndsEarly)
    }

    // A choice may be any number: the reader refuses those that are none.
    fn choice(&mut self) -> Result<u64, CaseError> {
        self.long()
    }
}
