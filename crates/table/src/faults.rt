// Why a table was not made.
ghost use Rattle.std.specs.Prelude.{◌≡◌};
ghost use Rattle.table.specs.Refusal.{refusal};

// The rule that a draft breaks, in the order of the refusals' numbers, from 1.
#[derive(Clone, Copy, PartialEq, Eq, Debug)]
pub enum TableFault {
    // a count is outside its range
    CountOutside,
    // a left side is not below the count of nonterminals
    NoLeftSide,
    // a production has over eight items
    TooManyItems,
    // an item's kind or nonterminal is not below its count
    NoSymbol,
    // an item or a result names a slot that it may not
    NoSlot,
    // a spelling's bytes break their rule
    BadLetters,
    // a nonterminal has no production
    NoProduction,
    // a spelling's kind is outside its range, or a spelling occurs twice
    BadSpelling,
}

impl TableFault {
    // All refusals, in the order of their numbers.
    pub const ALL: [TableFault; 8] = [
        TableFault::CountOutside,
        TableFault::NoLeftSide,
        TableFault::TooManyItems,
        TableFault::NoSymbol,
        TableFault::NoSlot,
        TableFault::BadLetters,
        TableFault::NoProduction,
        TableFault::BadSpelling,
    ];

    // The refusal's number. A method, since `u8::from` would not say which number.
    pub fn number(self) -> u8
        ensures { result ≡ refusal self }
    {
        match self {
            TableFault::CountOutside => 1,
            TableFault::NoLeftSide => 2,
            TableFault::TooManyItems => 3,
            TableFault::NoSymbol => 4,
            TableFault::NoSlot => 5,
            TableFault::BadLetters => 6,
            TableFault::NoProduction => 7,
            TableFault::BadSpelling => 8,
        }
    }
}
