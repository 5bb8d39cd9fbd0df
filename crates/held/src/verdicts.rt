// The lines that tell the verdict on a table, and its sets.
ghost use Rattle.std.specs.Prelude.{◌≡◌, Some, [], codes, slice_index, if◌then◌else◌};
ghost use Rattle.table.specs.Kinds.{bit, has};
ghost use Rattle.sets.specs.Words.{held};
ghost use Rattle.held.specs.Verdicts.{verdict_line, kind_name, kinds_text, nonterminal_line, production_line};

use analysis::faults::{CheckFault, Clash};
use sets::words::{PredictWords, SetWords};
use std::fmt;
use table::kinds::{END_MARK, KindSet};

// What the strong test said, as `passes`, `clash 2 3 3 0 0` or `classes 65`.
#[derive(Clone, Copy, Debug)]
pub struct Verdict(pub Result<(), CheckFault>);

impl fmt::Display for Verdict {
    ghost output = { λ v. Some (verdict_line v.0) };

    fn fmt<W: fmt::Write>(&self, f: &mut fmt::Formatter<W>) -> fmt::Result {
        match self.0 {
            Ok(()) => f.write_str("passes"),
            Err(CheckFault::TwoClash(clash)) => {
                let Clash {
                    a,
                    b,
                    kind,
                    inherited,
                    word,
                } = clash;
                write!(f, "clash {a} {b} {kind} {inherited} {word}")
            }
            Err(CheckFault::ManyClasses { classes }) => write!(f, "classes {classes}"),
        }
    }
}

// A kind by its number, and the end mark by its name.
#[derive(Clone, Copy)]
struct KindName(u8);

impl fmt::Display for KindName {
    ghost output = { λ n. Some (kind_name n.0) };

    fn fmt<W: fmt::Write>(&self, f: &mut fmt::Formatter<W>) -> fmt::Result {
        match self.0 {
            END_MARK => f.write_str("end"),
            kind => write!(f, "{kind}"),
        }
    }
}

// The kinds of a set, in order, each after a space.
#[derive(Clone, Copy)]
struct Kinds(KindSet);

impl fmt::Display for Kinds {
    ghost output = { λ s. Some (kinds_text (has s.0) 64) };

    fn fmt<W: fmt::Write>(&self, f: &mut fmt::Formatter<W>) -> fmt::Result {
        for kind in 0..64 {
            if self.0.has(kind) {
                write!(f, " {}", KindName(kind))?;
            }
        }
        Ok(())
    }
}

// On its own, since the proof did not close with the choice inside `fmt`, as an `if` or by `then_some`.
fn empty_text(can_be_empty: bool) -> &'static str
    ensures { result.now ≡ if can_be_empty then codes " can be empty," else [] }
{
    if can_be_empty { " can be empty," } else { "" }
}

// A nonterminal's sets, as `nonterminal 1 can be empty, first 3, follow 3 end`.
#[derive(Clone, Copy)]
pub struct NonterminalLine<'a> {
    pub sets: &'a SetWords,
    pub nonterminal: u8,
}

impl fmt::Display for NonterminalLine<'_> {
    ghost output = { λ l. Some (nonterminal_line (held l.sets.now) l.nonterminal) };

    fn fmt<W: fmt::Write>(&self, f: &mut fmt::Formatter<W>) -> fmt::Result {
        let nonterminal = self.nonterminal;
        let empty = empty_text(self.sets.can_be_empty(nonterminal));
        let first = Kinds(self.sets.first(nonterminal));
        let follow = Kinds(self.sets.follow(nonterminal));
        write!(
            f,
            "nonterminal {nonterminal}{empty} first{first}, follow{follow}"
        )
    }
}

// A production's Predict set, as `production 3 predict 3 end`.
#[derive(Clone, Copy)]
pub struct ProductionLine<'a> {
    pub predicts: &'a PredictWords,
    pub production: u8,
}

impl fmt::Display for ProductionLine<'_> {
    ghost output = { λ l. Some (production_line (bit (slice_index l.predicts.now.words l.production)) l.production) };

    fn fmt<W: fmt::Write>(&self, f: &mut fmt::Formatter<W>) -> fmt::Result {
        let production = self.production;
        let predict = Kinds(self.predicts.get(production));
        write!(f, "production {production} predict{predict}")
    }
}
