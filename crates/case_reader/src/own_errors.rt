// Numbers with errors of any text, read by what reads those with small ones.
use crate::faults::CaseError;
use crate::numbers::{CaseNumbers, Numbers};

// A source of numbers, and its error once it has given one.
#[derive(Drop)]
pub(crate) struct OwnErrors<'a, N> {
    from: &'a mut N,
    error: Option<anyhow::Error>,
}

impl<'a, N: Numbers> OwnErrors<'a, N> {
    pub(crate) fn of(from: &'a mut N) -> OwnErrors<'a, N> {
        OwnErrors { from, error: None }
    }

    // What was read. An error is kept for `why`, and a small one, which `why` drops, stands in for it.
    fn keep<T>(&mut self, read: anyhow::Result<T>) -> Result<T, CaseError> {
        read.map_err(|error| {
            self.error = Some(error);
            CaseError::NoNumber
        })
    }

    // Why reading ended: the source's own error, or else the reader's.
    pub(crate) fn why(self, error: CaseError) -> anyhow::Error {
        self.error.unwrap_or_else(|| error.into())
    }
}

impl<N: Numbers> CaseNumbers for OwnErrors<'_, N> {
    fn long(&mut self) -> Result<u64, CaseError> {
        let read = self.from.long();
        self.keep(read)
    }

    fn short(&mut self) -> Result<u16, CaseError> {
        let read = self.from.short();
        self.keep(read)
    }

    fn byte(&mut self) -> Result<u8, CaseError> {
        let read = self.from.byte();
        self.keep(read)
    }

    fn count(&mut self) -> Result<u64, CaseError> {
        let read = self.from.count();
        self.keep(read)
    }

    fn choice(&mut self) -> Result<u64, CaseError> {
        let read = self.from.choice();
        self.keep(read)
    }
}
