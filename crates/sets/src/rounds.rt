// Rounds over the productions of a table, until nothing is new.
ghost use Rattle.std.specs.Prelude.{◌≡◌, false};
ghost use Rattle.table.specs.Grammar.{Production, grammar};
ghost use Rattle.sets.specs.Rounds.{Grown, Sound};
ghost use Rattle.sets.specs.Rules.{Everywhere, Family, Within};
ghost use Rattle.sets.specs.Words.{held};

use crate::words::SetWords;
use table::made::Table;

// A rule that is gone round with. A round is a method of the rule and no step at one production, since the rules go over the productions in
// different directions.
pub(crate) trait Rule {
    // what sets that meet the rule are at a production
    ghost Met: { Family → Production → Type 0 };

    // the sets that the rule adds nothing to, alone
    ghost others: { Family → Family };

    // One round: adds what the rule gives at each production, and tells whether that was new.
    fn round(sets: &mut SetWords, table: &Table) -> bool
        ensures sound { Sound (grammar table.now.draft) (held sets.old) → Sound (grammar table.now.draft) (held sets.new) }
        ensures grown { Grown result sets.old sets.new }
        ensures met { result ≡ false → Everywhere (grammar table.now.draft) (Met (held sets.new)) }
        ensures others { others (held sets.new) ≡ others (held sets.old) };
}

impl SetWords {
    // Goes round until nothing is new.
    pub(crate) fn settle<R: Rule>(&mut self, table: &Table)
        requires { Sound (grammar table.now.draft) (held self.old) }
        ensures sound { Sound (grammar table.now.draft) (held self.new) }
        ensures met { Everywhere (grammar table.now.draft) (R.Met (held self.new)) }
        ensures within { Within (held self.old) (held self.new) }
        ensures others { R.others (held self.new) ≡ R.others (held self.old) }
    {
        while R::round(self, table) {}
    }
}
