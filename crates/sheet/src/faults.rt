// Where and why a sheet is denied.
ghost use Rattle.std.specs.Prelude.{◌≡◌, Some};
ghost use Rattle.sheet.specs.declared.faults.Fault.TheVariants.{Text, Value};
ghost use Rattle.sheet.specs.Denials.{refusal, denial_line};

use std::fmt;
use text::faults::{TextFault, ValueFault};

// The fault of a lower layer, whole.
#[derive(Clone, Copy, PartialEq, Eq, Debug)]
pub enum Fault {
    Text(TextFault),
    Value(ValueFault),
}

impl Fault {
    // The refusal's number. A method, since `u8::from` would not say which number.
    pub fn number(self) -> u8
        ensures { result ≡ refusal self }
    {
        match self {
            Fault::Text(fault) => fault.number(),
            Fault::Value(fault) => fault.number(),
        }
    }
}

impl From<TextFault> for Fault {
    ghost from_gives = { λ f r. r ≡ Text f };

    fn from(fault: TextFault) -> Fault {
        Fault::Text(fault)
    }
}

impl From<ValueFault> for Fault {
    ghost from_gives = { λ f r. r ≡ Value f };

    fn from(fault: ValueFault) -> Fault {
        Fault::Value(fault)
    }
}

// A fault with its byte place, counted from 0, and the number of its word, counted from 1.
#[derive(Clone, Copy, PartialEq, Eq, Debug)]
pub struct Denial {
    pub fault: Fault,
    pub byte: usize,
    pub word: usize,
}

// The line that tells a denial, as `denied 14 byte 5 word 2`.
impl fmt::Display for Denial {
    ghost output = { λ d. Some (denial_line d) };

    fn fmt<W: fmt::Write>(&self, f: &mut fmt::Formatter<W>) -> fmt::Result {
        let Denial { fault, byte, word } = self;
        let number = fault.number();
        write!(f, "denied {number} byte {byte} word {word}")
    }
}
