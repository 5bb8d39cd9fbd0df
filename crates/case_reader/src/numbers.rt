// The numbers of a case, one after the other.
use crate::faults::CaseError;

// Where the numbers of a case come from, with errors of any text. The allocator stands beside it as a parameter of its own, as in the
// library's calls.
pub trait Numbers {
    // The next number, of up to 64 bits.
    fn long(&mut self) -> anyhow::Result<u64>;

    // The next number, of up to 16 bits.
    fn short(&mut self) -> anyhow::Result<u16> {
        Ok(u16::try_from(self.long()?)?)
    }

    // The next number, of up to 8 bits.
    fn byte(&mut self) -> anyhow::Result<u8> {
        Ok(u8::try_from(self.long()?)?)
    }

    // The next number, which says how many parts follow.
    fn count(&mut self) -> anyhow::Result<u64> {
        Ok(u64::from(self.byte()?))
    }

    // The next number, which says what kind of part follows.
    fn choice(&mut self) -> anyhow::Result<u64> {
        Ok(u64::from(self.byte()?))
    }
}

// The same with small errors, as the programs have them: `CaseError` says why.
pub trait CaseNumbers {
    // The next number, of up to 64 bits.
    fn long(&mut self) -> Result<u64, CaseError>;

    // The next number, of up to 16 bits.
    fn short(&mut self) -> Result<u16, CaseError> {
        Ok(u16::try_from(self.long()?)?)
    }

    // The next number, of up to 8 bits.
    fn byte(&mut self) -> Result<u8, CaseError> {
        Ok(u8::try_from(self.long()?)?)
    }

    // The next number, which says how many parts follow.
    fn count(&mut self) -> Result<u64, CaseError> {
        Ok(u64::from(self.byte()?))
    }

    // The next number, which says what kind of part follows.
    fn choice(&mut self) -> Result<u64, CaseError> {
        Ok(u64::from(self.byte()?))
    }
}
