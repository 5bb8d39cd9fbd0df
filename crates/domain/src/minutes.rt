// Minutes up to a limit, told apart by cuts.
ghost use Rattle.std.specs.Prelude.{◌≡◌, ◌↔◌, true, IsOk, IfOk, IfErr};
ghost use Rattle.domain.specs.Minutes.{minutes};
ghost use Rattle.domain.specs.Sizes.{minutes_sized, rising};
ghost use Rattle.domain.specs.Laws.{minutes_lawful};

use crate::{Domain, DomainFault};

// A limit from 1 to 65,535 and up to seven cuts, strictly rising, each from 1 to the limit.
#[derive(Drop, PartialEq, Eq, Debug)]
pub struct Minutes {
    limit: u16,
    cuts: Vec<u16>,
    ghost sized: { minutes_sized limit cuts.items ≡ true },
}

impl Minutes {
    // Minutes of this limit and these cuts, or a refusal where they are outside the sizes.
    pub fn new(limit: u16, cuts: Vec<u16>) -> Result<Minutes, DomainFault>
        ensures made { IsOk result ↔ (minutes_sized limit cuts.items ≡ true) }
        ensures limit { IfOk result (λ d. d.limit ≡ limit) }
        ensures cuts { IfOk result (λ d. d.cuts ≡ cuts) }
        ensures meaning { IfOk result (λ d. ⟦<Minutes as Domain>⟧.meaning d ≡ minutes limit cuts.items) }
        ensures refused { IfErr result (λ fault. fault ≡ DomainFault.OutsideSizes) }
    {
        if limit > 0 && cuts.len() <= 7 && rise(limit, &cuts) {
            Ok(Minutes { limit, cuts })
        } else {
            Err(DomainFault::OutsideSizes)
        }
    }
}

// Whether the cuts rise strictly, each from 1 to the limit.
// A loop, since a chain would have to carry the last cut along: no plainer.
fn rise(limit: u16, cuts: &[u16]) -> bool
    ensures { result ≡ rising 0 limit cuts.now }
{
    let mut low = 0;
    for &cut in cuts {
        if cut <= low || cut > limit {
            return false;
        }
        low = cut;
    }
    true
}

impl Domain for Minutes {
    type Value = u16;

    ghost meaning = { λ d. minutes d.limit d.cuts.items };

    ghost lawful = { λ d. minutes_lawful d.limit d.cuts.items d.sized };

    fn classes(&self) -> u16 {
        self.cuts.len() as u16 + 1
    }

    fn opening(&self) -> u16 {
        0
    }

    fn class(&self, value: u16) -> u16 {
        // Counted by a fold, in 16 bits: `filter` and `count` take nearly twice the time over seven cuts.
        let raised = |class: u16, cut: &u16| class.wrapping_add(u16::from(*cut <= value));
        self.cuts.iter().fold(0, raised)
    }

    fn rule(&self, number: u8, first: u16, second: u16) -> u16 {
        match number {
            1 => second,
            2 => first.saturating_add(second).min(self.limit),
            3 => first.saturating_sub(second),
            _ => first,
        }
    }

    fn check(&self, number: u8, first: u16, second: u16) -> bool {
        match number {
            0 => true,
            1 => first <= second,
            2 => first == second,
            _ => false,
        }
    }

    // Posts have the arm on classes too: to share it, the other arms would have to be a closure, no plainer.
    fn test(&self, number: u8, inherited: u16, word: u16) -> bool {
        let classes = self.classes();
        match number {
            0 => true,
            _ if inherited >= classes || word >= classes => false,
            1 => inherited == word,
            2 => inherited != word,
            3 => inherited < word,
            4 => inherited >= word,
            _ => false,
        }
    }

    fn number(&self, number: u16) -> Option<u16> {
        if number <= self.limit {
            Some(number)
        } else {
            None
        }
    }
}
