// A place in a text, from which its words are given in order.
ghost use Rattle.std.specs.Prelude.{◌≡◌, ◌+◌, ◌≤◌, [], ◌∷◌, length, is_some, if◌then◌else◌, IfSome, IfNone};
ghost use Rattle.text.specs.Words.{front_len, seen, separates, words};

use crate::words::{Run, Word};

// The words before the place have been given, and counted.
#[derive(Drop)]
pub struct Cursor<'a> {
    text: &'a [u8],
    place: usize,
    count: usize,
    ghost counted: { count ≤ place },
    ghost inside: { place ≤ length text.now },
}

impl<'a> Cursor<'a> {
    ghost use Rattle.text.specs.Cursors.{to_come};

    // A cursor at the start of the text.
    pub fn new(text: &'a [u8]) -> Cursor<'a>
        ensures words { to_come result ≡ words text.now }
        ensures text { result.text ≡ text.entry }
        ensures place { result.place ≡ 0 }
        ensures count { result.count ≡ 0 }
    {
        Cursor {
            text,
            place: 0,
            count: 0,
        }
    }

    // How many words have been given; the number of the last of them, counted from 1.
    pub fn count(&self) -> usize
        ensures { result ≡ self.now.count }
    {
        self.count
    }

    // The next word, where there is one; the cursor then stands at the word's end, or at the text's.
    #[tactic(auto, using(crate::proofs::Runs::of_runs))]
    pub fn next(&mut self) -> Option<Word<'a>>
        ensures text { self.new.text ≡ self.old.text }
        ensures count { self.new.count ≡ self.old.count + (if is_some result then 1 else 0) }

        ensures word { IfSome result (λ w. to_come self.old ≡ seen w ∷ to_come self.new) }
        ensures word_end { IfSome result (λ w. self.new.place ≡ (seen w).place + length (seen w).letters) }

        ensures none { IfNone result (to_come self.old ≡ []) }
        ensures text_end { IfNone result (self.new.place ≡ length self.old.text.now) }
    {
        let text = self.text;
        let start = self.place + front_len(&text[self.place..], true);
        let end = start + front_len(&text[start..], false);
        self.place = end;
        if start == end {
            return None;
        }
        self.count += 1;
        let run = Run {
            place: start,
            letters: &text[start..end],
        };
        Some(run.into())
    }
}

// Whether the byte parts words.
fn is_separator(byte: u8) -> bool
    ensures { result ≡ separates byte }
{
    byte == b' ' || byte == b'\n'
}

// How many bytes are separators, or other bytes, from the first byte on.
fn front_len(bytes: &[u8], separators: bool) -> usize
    ensures value { result ≡ front_len separators bytes.now }
    ensures bound { result ≤ length bytes.now }
{
    bytes
        .iter()
        .take_while(|byte| is_separator(**byte) == separators)
        .count()
}
