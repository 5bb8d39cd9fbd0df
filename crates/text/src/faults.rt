// Why a text or a word is refused.
ghost use Rattle.std.specs.Prelude.{◌≡◌};
ghost use Rattle.text.specs.Refusal.{text_refusal, value_refusal};

// What is wrong with a text or with one of its words.
#[derive(Clone, Copy, PartialEq, Eq, Debug)]
pub enum TextFault {
    // 13: the text exceeds 65,536 bytes
    TooLong,
    // 14: the word is no spelling
    NoSpelling,
    // 15: a number word has over five digits or exceeds 65,535
    NumberTooLarge,
}

impl TextFault {
    // The refusal's number. A method, since `u8::from` would not say which number.
    pub fn number(self) -> u8
        ensures { result ≡ text_refusal self }
    {
        match self {
            TextFault::TooLong => 13,
            TextFault::NoSpelling => 14,
            TextFault::NumberTooLarge => 15,
        }
    }
}

// What is wrong with a word's number.
#[derive(Clone, Copy, PartialEq, Eq, Debug)]
pub enum ValueFault {
    // 16: the domain has no value for the number
    NoValue,
}

impl ValueFault {
    // The refusal's number. A method, since `u8::from` would not say which number.
    pub fn number(self) -> u8
        ensures { result ≡ value_refusal self }
    {
        match self {
            ValueFault::NoValue => 16,
        }
    }
}
