// Kinds of word, and sets of them. Kind 0 is the number word; kind 63 is the end mark, which is no word.
ghost use Rattle.std.specs.Prelude.{◌≡◌, ℕ, false, not, ◌&&◌, ◌||◌, ◌==◌, nat_lt};
ghost use Rattle.table.specs.Kinds.{has};

use std::marker::Model;
use std::ops::{BitOr, BitOrAssign};

// The kind that is the end mark.
pub const END_MARK: u8 = 63;

// A set of kinds among 0 to 63. Clauses see it as a number: bit k stands for kind k.
#[derive(Clone, Copy, PartialEq, Eq, Debug)]
pub struct KindSet {
    bits: u64,
}

impl Model for KindSet {
    ghost Value = { ℕ };

    ghost view = { λ s. s.bits };

    ghost inverse = { λ n. record { bits = n } };
}

// The set that a number writes.
impl From<u64> for KindSet {
    ghost from_gives = { λ bits set. set ≡ bits };

    fn from(bits: u64) -> KindSet {
        KindSet { bits }
    }
}

// The number that writes the set.
impl From<KindSet> for u64 {
    ghost from_gives = { λ set bits. bits ≡ set };

    fn from(set: KindSet) -> u64 {
        set.bits
    }
}

// The kinds of either set.
impl BitOr for KindSet {
    type Output = KindSet;

    ghost bitor_gives = { λ a b both. (k : ℕ) → has both k ≡ (has a k || has b k) };

    #[tactic(auto, using(crate::proofs::Bits::bit_of_or))]
    fn bitor(self, other: KindSet) -> KindSet {
        KindSet {
            bits: self.bits | other.bits,
        }
    }
}

impl BitOrAssign for KindSet {
    ghost bitor_assign_gives = { λ a b both. (k : ℕ) → has both k ≡ (has a k || has b k) };

    fn bitor_assign(&mut self, other: KindSet) {
        *self = *self | other;
    }
}

impl KindSet {
    // The set of no kind.
    #[tactic(auto, using(crate::proofs::Bits::bit_zero))]
    pub fn none() -> KindSet
        ensures number { result ≡ 0 }
        ensures kinds { (k : ℕ) → has result k ≡ false }
    {
        KindSet { bits: 0 }
    }

    // The set of all kinds, with the end mark.
    #[tactic(auto, using(crate::proofs::Bits::bit_full))]
    pub fn full() -> KindSet
        ensures { (k : ℕ) → has result k ≡ nat_lt k 64 }
    {
        KindSet { bits: u64::MAX }
    }

    // Whether the kind is in the set.
    #[tactic(auto, using(crate::proofs::Bits::word_past))]
    pub fn has(self, kind: u8) -> bool
        ensures { result ≡ has self kind }
    {
        kind < 64 && (self.bits >> kind) & 1 == 1
    }

    // The set with the kind left out.
    #[tactic(auto, using(crate::proofs::Bits::word_within, crate::proofs::Bits::word_without))]
    pub fn without(self, kind: u8) -> KindSet
        ensures { (k : ℕ) → has result k ≡ (not (k == kind) && has self k) }
    {
        if self.has(kind) {
            KindSet {
                bits: self.bits ^ (1 << kind),
            }
        } else {
            self
        }
    }
}
