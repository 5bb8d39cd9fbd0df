// Why a table does not pass.
ghost use Rattle.std.specs.Prelude.{◌≡◌};

// Two productions that one word of sight does not decide between.
#[derive(Clone, Copy, PartialEq, Eq, Debug)]
pub struct Clash {
    // the productions, the lower number first
    pub a: u8,
    pub b: u8,
    // what is in sight
    pub kind: u8,
    // the class of the inherited value
    pub inherited: u8,
    // the class of the word
    pub word: u8,
}

#[derive(Clone, Copy, PartialEq, Eq, Debug)]
pub enum CheckFault {
    // 10: the domain has over 64 classes, so many
    ManyClasses { classes: u16 },
    // 11: two productions clash; the first clash in the order of its numbers
    TwoClash(Clash),
}

impl CheckFault {
    ghost use Rattle.analysis.specs.Verdict.{refusal};

    // The refusal's number. A method, since `u8::from` would not say which number.
    pub fn number(self) -> u8
        ensures { result ≡ refusal self }
    {
        match self {
            CheckFault::ManyClasses { .. } => 10,
            CheckFault::TwoClash(_) => 11,
        }
    }
}
