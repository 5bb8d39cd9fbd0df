// Words as parts of a text.
ghost use Rattle.std.specs.Prelude.{◌≡◌};

use table::spellings::digits_alone;

// A part of a text, with its byte place.
#[derive(Clone, Copy, PartialEq, Eq, Debug)]
pub struct Run<'a> {
    pub place: usize,
    pub letters: &'a [u8],
}

// A longest run of bytes other than 32 and 10.
#[derive(Clone, Copy, PartialEq, Eq, Debug)]
pub enum Word<'a> {
    // digits alone
    Number(Run<'a>),
    // any other run
    Spelled(Run<'a>),
}

impl<'a> From<Run<'a>> for Word<'a> {
    ghost use Rattle.text.specs.Words.{seen, word_of};

    ghost from_gives = { λ run word. seen word ≡ word_of run.place run.letters.now };

    // Digits alone make a number word.
    fn from(run: Run<'a>) -> Word<'a> {
        if digits_alone(run.letters) {
            Word::Number(run)
        } else {
            Word::Spelled(run)
        }
    }
}

impl<'a> Word<'a> {
    ghost use Rattle.text.specs.Words.{run, seen};

    // The part of the text that the word is.
    pub fn run(&self) -> Run<'a>
        ensures { result ≡ run self.now }
    {
        match self {
            Word::Number(run) | Word::Spelled(run) => *run,
        }
    }

    // The byte place at which the word begins.
    pub fn place(&self) -> usize
        ensures { result ≡ (seen self.now).place }
    {
        self.run().place
    }
}
