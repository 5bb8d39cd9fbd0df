// Tables whose rules all hold.
ghost use Rattle.std.specs.Prelude.{◌≡◌, true, None};
ghost use Rattle.std.specs.Option.{option_map};
ghost use Rattle.table.specs.Rules.{sound};

use crate::drafts::{Draft, Spelling};
use crate::spellings::find;

// A made table: a draft that breaks no rule.
#[derive(Drop)]
pub struct Table {
    draft: Draft,
    ghost ok: { sound draft ≡ true },
}

impl Draft {
    ghost use Rattle.table.specs.Rules.{table_fault};

    // The table of a draft that `review` found nothing against.
    pub fn make(self) -> Table
        requires { None ≡ table_fault self }
        ensures { result.draft ≡ self }
    {
        Table { draft: self }
    }
}

impl Table {
    ghost use Rattle.table.specs.Rules.{spellings};
    ghost use Rattle.table.specs.Spellings.{spelled};

    // What the table was made of.
    pub fn draft(&self) -> &Draft
        ensures { result.now ≡ self.now.draft }
    {
        &self.draft
    }

    // Gives the draft back.
    pub fn into_draft(self) -> Draft
        ensures { result ≡ self.draft }
    {
        let Table { draft } = self;
        draft
    }

    // The spelling that equals the word, byte for byte.
    pub fn spelling(&self, word: &[u8]) -> Option<&Spelling>
        ensures { option_map (λ x. x.now) result ≡ spelled (spellings self.now.draft) word.now }
    {
        find(&self.draft.spellings, word)
    }
}
