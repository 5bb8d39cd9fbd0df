// The kind and the number of a word.
ghost use Rattle.std.specs.Prelude.{◌≡◌, length, if◌then◌else◌, Some, None, Ok, Err, nat_le};
ghost use Rattle.std.specs.Option.{ok_or};
ghost use Rattle.table.specs.Rules.{spellings};
ghost use Rattle.text.specs.Lexemes.{digits_value, lexeme, number_lexeme};
ghost use Rattle.text.specs.Words.{seen};

use crate::faults::{TextFault, ValueFault};
use crate::words::Word;
use domain::Domain;
use table::made::Table;

// The most bytes that a text may have.
pub const MOST_BYTES: usize = 65_536;

// What a word stands for: its kind, and the number that the domain turns into a value.
#[derive(Clone, Copy, PartialEq, Eq, Debug)]
pub struct Lexeme {
    // a number, as in the table's draft, where each kind has one; 0 for number words
    pub kind: u8,
    pub number: u16,
}

impl Lexeme {
    // The value that the domain gives the number.
    pub fn value<D: Domain>(self, domain: &D) -> Result<D::Value, ValueFault>
        ensures { result ≡ ok_or ((D.meaning domain.now).number self.number) ValueFault.NoValue }
    {
        domain.number(self.number).ok_or(ValueFault::NoValue)
    }
}

impl Word<'_> {
    // The kind and the number of the word in the table.
    pub fn lexeme(&self, table: &Table) -> Result<Lexeme, TextFault>
        ensures { result ≡ lexeme (spellings table.now.draft) (seen self.now) }
    {
        match self {
            Word::Number(run) => number(run.letters),
            Word::Spelled(run) => {
                let spelling = table.spelling(run.letters).ok_or(TextFault::NoSpelling)?;
                Ok(Lexeme {
                    kind: spelling.kind,
                    number: spelling.number,
                })
            }
        }
    }
}

// The lexeme of a number word.
fn number(digits: &[u8]) -> Result<Lexeme, TextFault>
    ensures { result ≡ number_lexeme digits.now }
{
    if digits.len() > 5 {
        return Err(TextFault::NumberTooLarge);
    }
    let number = value_of(digits).ok_or(TextFault::NumberTooLarge)?;
    Ok(Lexeme { kind: 0, number })
}

// The number that the digits write, where it fits.
fn value_of(digits: &[u8]) -> Option<u16>
    ensures { result ≡ (if nat_le (digits_value 0 digits.now) 65535 then Some (digits_value 0 digits.now) else None) }
{
    digits.iter().try_fold(0_u16, |value, digit| {
        value
            .checked_mul(10)?
            .checked_add(u16::from(digit.saturating_sub(b'0')))
    })
}

// Whether the text is short enough to be read.
pub fn check_length(text: &[u8]) -> Result<(), TextFault>
    ensures { result ≡ (if nat_le (length text.now) 65536 then Ok tt else Err TextFault.TooLong) }
{
    if text.len() <= MOST_BYTES {
        Ok(())
    } else {
        Err(TextFault::TooLong)
    }
}
