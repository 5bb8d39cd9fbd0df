// Drafts of tables, reviewed and made.
use crate::answers::Answer;
use crate::words::Words;
use case_reader::drafts::read_case_draft;
use case_reader::faults::CaseError;
use case_reader::numbers::CaseNumbers;
use std::alloc::Global;
use table::drafts::Spelling;

fn read_spelling(heap: Global, words: &mut Words<'_>) -> Result<Spelling, CaseError> {
    Ok(Spelling {
        kind: words.byte()?,
        number: words.short()?,
        letters: words.bytes(heap)?,
    })
}

pub(crate) fn draft_case(heap: Global, words: &mut Words<'_>) -> anyhow::Result<Answer> {
    let mut draft = read_case_draft(heap, words)?;
    let count = words.count()?;
    draft.spellings = (0..count)
        .map(|_| read_spelling(heap, words))
        .try_collect(heap)?;
    match draft.review() {
        Ok(()) => {
            let _table = draft.make();
            Ok(Answer::Made)
        }
        Err(fault) => Ok(fault.into()),
    }
}
