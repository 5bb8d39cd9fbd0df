// Texts cut into words, and sheets read with the held table.
use crate::answers::Answer;
use crate::words::Words;
use anyhow::anyhow;
use case_reader::numbers::CaseNumbers;
use held::domains::held_minutes;
use held::drafts::held_draft;
use held::lines::SheetLine;
use std::alloc::Global;
use std::fmt::Write;
use text::cursor::Cursor;
use text::words::Word;

// More words than this are not told.
const MOST_WORDS: usize = 10_000;

// Whether the word is a number, its place and its length.
fn write_word(line: &mut String, word: &Word<'_>) -> anyhow::Result<()> {
    let case = match word {
        Word::Number(_) => 'N',
        Word::Spelled(_) => 'S',
    };
    write!(line, "{case} {} {}", word.place(), word.run().letters.len())?;
    Ok(())
}

pub(crate) fn text_case(heap: Global, words: &mut Words<'_>) -> anyhow::Result<Answer> {
    let text = words.bytes(heap)?;
    let mut cursor = Cursor::new(&text);
    let mut line = String::new(heap);
    while let Some(word) = cursor.next() {
        if cursor.count() > MOST_WORDS {
            break;
        }
        if !line.is_empty() {
            line.push_str(" ")?;
        }
        write_word(&mut line, &word)?;
    }
    if line.is_empty() {
        return Ok(Answer::None);
    }
    Ok(Answer::Words(line))
}

pub(crate) fn sheet_case(heap: Global, words: &mut Words<'_>) -> anyhow::Result<Answer> {
    read_sheet(heap, &words.bytes(heap)?)
}

// A sheet of so many spaces.
pub(crate) fn blank_case(heap: Global, words: &mut Words<'_>) -> anyhow::Result<Answer> {
    let count = usize::try_from(words.count()?)?;
    read_sheet(heap, &vec![in heap; b' '; count]?)
}

fn read_sheet(heap: Global, text: &[u8]) -> anyhow::Result<Answer> {
    let draft = held_draft(heap)?;
    draft
        .review()
        .map_err(|_| anyhow!("the held table is refused"))?;
    let table = draft.make();
    let line = SheetLine::of(text, &table, &held_minutes(heap), heap)?;
    Ok(Answer::Sheet(line))
}
