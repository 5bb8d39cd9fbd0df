// The letters of spellings, and how a word is found among them.
ghost use Rattle.std.specs.Prelude.{◌≡◌};
ghost use Rattle.std.specs.Int.{is_in_range};
ghost use Rattle.std.specs.List.{list_all};
ghost use Rattle.std.specs.Option.{option_map};
ghost use Rattle.table.specs.Spellings.{spelled, distinct, digits_alone};

use crate::drafts::Spelling;

// Whether all letters are digits.
pub fn digits_alone(letters: &[u8]) -> bool
    ensures { result ≡ digits_alone letters.now }
{
    letters.iter().all(|letter| letter.is_ascii_digit())
}

// Whether all letters are from 33 to 126.
pub(crate) fn graphic_alone(letters: &[u8]) -> bool
    ensures { result ≡ list_all (is_in_range 33 126) letters.now }
{
    letters.iter().all(|letter| letter.is_ascii_graphic())
}

// The first spelling that equals the word, byte for byte.
pub(crate) fn find<'a>(spellings: &'a [Spelling], word: &[u8]) -> Option<&'a Spelling>
    ensures { option_map (λ x. x.now) result ≡ spelled spellings.now word.now }
{
    spellings
        .iter()
        .find(|spelling| spelling.letters.as_slice() == word)
}

// Whether no two spellings are equal.
// A loop, since a chain would have to cut what follows each spelling by index: no plainer.
pub(crate) fn differ(spellings: &[Spelling]) -> bool
    ensures { result ≡ distinct spellings.now }
{
    let mut left = spellings;
    while let Some((first, rest)) = left.split_first() {
        if find(rest, &first.letters).is_some() {
            return false;
        }
        left = rest;
    }
    true
}
