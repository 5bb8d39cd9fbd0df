// Domains: the values that the symbols of a table carry, and the questions that a reader asks of them.
#![tactic(auto)]

ghost use Rattle.std.specs.Prelude.{◌≡◌};
ghost use Rattle.domain.specs.Meaning.{Meaning, Lawful};
ghost use Rattle.domain.specs.Refusal.{refusal};

pub mod minutes;
pub mod posts;

// A domain by its meaning: each method answers what `meaning` says, and alters nothing.
pub trait Domain {
    type Value: Copy;

    ghost meaning: { Self → Meaning Self.Value };

    // How many classes there are, from 1 to 65,535.
    fn classes(&self) -> u16
        ensures { result ≡ (meaning self.now).classes.count };

    // What nonterminal 0 inherits.
    fn opening(&self) -> Self::Value
        ensures { result ≡ (meaning self.now).opening };

    // The class of a value, below the count of classes.
    fn class(&self, value: Self::Value) -> u16
        ensures { result ≡ (meaning self.now).class value };

    // What a rule makes of two values.
    fn rule(&self, number: u8, first: Self::Value, second: Self::Value) -> Self::Value
        ensures { result ≡ (meaning self.now).rule number first second };

    // What a check says of two values.
    fn check(&self, number: u8, first: Self::Value, second: Self::Value) -> bool
        ensures { result ≡ (meaning self.now).check number first second };

    // What a test says of the classes of the inherited value and of the word's; test 0 always says yes.
    fn test(&self, number: u8, inherited: u16, word: u16) -> bool
        ensures { result ≡ (meaning self.now).classes.test number inherited word };

    // The value of the number that a word carries, where it has one.
    fn number(&self, number: u16) -> Option<Self::Value>
        ensures { result ≡ (meaning self.now).number number };

    ghost lawful: { (d : Self) → Lawful (meaning d) };
}

// Why a domain was not made.
#[derive(Clone, Copy, PartialEq, Eq, Debug)]
pub enum DomainFault {
    // 9: Minutes or Posts is wanted outside its sizes
    OutsideSizes,
}

impl DomainFault {
    // The refusal's number. A method, since `u8::from` would not say which number.
    pub fn number(self) -> u8
        ensures { result ≡ refusal self }
    {
        match self {
            DomainFault::OutsideSizes => 9,
        }
    }
}
