// The bytes of a case, one after the other.
use anyhow::ensure;
use case_reader::faults::CaseError;
use case_reader::numbers::CaseNumbers;

// Bytes that are still to be read.
#[derive(Drop)]
pub(crate) struct Bytes<'a> {
    bytes: &'a [u8],
}

impl<'a> Bytes<'a> {
    pub(crate) fn new(bytes: &'a [u8]) -> Bytes<'a> {
        Bytes { bytes }
    }

    // So many bytes from the front.
    fn take<const N: usize>(&mut self) -> Result<[u8; N], CaseError> {
        let (front, rest) = self.bytes.split_first_chunk().ok_or(CaseError::EndsEarly)?;
        self.bytes = rest;
        Ok(*front)
    }

    // Nothing may be left.
    pub(crate) fn end(&self) -> anyhow::Result<()> {
        ensure!(self.bytes.is_empty(), "the case goes on too long");
        Ok(())
    }
}

// Numbers as wide as they may be, the high byte first.
impl CaseNumbers for Bytes<'_> {
    fn byte(&mut self) -> Result<u8, CaseError> {
        Ok(u8::from_be_bytes(self.take()?))
    }

    fn short(&mut self) -> Result<u16, CaseError> {
        Ok(u16::from_be_bytes(self.take()?))
    }

    fn long(&mut self) -> Result<u64, CaseError> {
        Ok(u64::from_be_bytes(self.take()?))
    }
}
