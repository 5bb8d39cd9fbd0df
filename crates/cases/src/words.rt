// The words of the cases, one after the other.
use case_reader::faults::CaseError;
use case_reader::numbers::CaseNumbers;
use std::alloc::Global;
use text::cursor::Cursor;
use text::words::Word;

// Words that are still to be read. The allocator stands beside them as a parameter of its own, as in the library's calls.
#[derive(Drop)]
pub(crate) struct Words<'a> {
    cursor: Cursor<'a>,
}

impl<'a> Words<'a> {
    pub(crate) fn new(text: &'a [u8]) -> Words<'a> {
        Words {
            cursor: Cursor::new(text),
        }
    }

    // The next word, whatever it is, where there is one.
    pub(crate) fn name(&mut self) -> Option<&'a [u8]> {
        Some(self.cursor.next()?.run().letters)
    }

    // A count, and so many bytes.
    pub(crate) fn bytes(&mut self, heap: Global) -> Result<Vec<u8>, CaseError> {
        let count = self.count()?;
        (0..count).map(|_| self.byte()).try_collect(heap)
    }
}

impl CaseNumbers for Words<'_> {
    fn long(&mut self) -> Result<u64, CaseError> {
        let Some(Word::Number(run)) = self.cursor.next() else {
            return Err(CaseError::NoNumber);
        };
        // Not by `parse`, which wants the digits as a `str` and goes over them twice.
        run.letters
            .iter()
            .try_fold(0_u64, |number, digit| {
                number
                    .checked_mul(10)?
                    .checked_add(u64::from(digit.saturating_sub(b'0')))
            })
            .ok_or(CaseError::NoNumber)
    }

    fn count(&mut self) -> Result<u64, CaseError> {
        self.long()
    }
}
