// Charging posts, at most six, and sets of them.
ghost use Rattle.std.specs.Prelude.{◌≡◌, ◌<◌, ◌^◌, ◌↔◌, true, IsOk, IfOk, IfErr};
ghost use Rattle.std.specs.Result.{OkIff};
ghost use Rattle.domain.specs.Sizes.{posts_sized};

use crate::{Domain, DomainFault};

// A set of posts: bit b stands for post b + 1.
#[derive(Clone, Copy, PartialEq, Eq, Debug)]
pub struct PostSet {
    bits: u8,
    ghost six: { bits < 64 },
}

// A number that writes no set of posts, as it is 64 or more.
#[derive(Clone, Copy, PartialEq, Eq, Debug)]
pub struct PostSetError;

impl PostSet {
    ghost use Rattle.domain.specs.Posts.{written};

    // The set that a number writes; bits beyond the six posts stand for none.
    fn written(bits: u8) -> PostSet
        ensures { result ≡ written bits }
    {
        PostSet { bits: bits % 64 }
    }
}

// The set that a number below 64 writes.
impl TryFrom<u8> for PostSet {
    ghost use Rattle.domain.specs.Posts.{written};

    type Error = PostSetError;

    ghost try_from_gives = { λ bits result. OkIff result (bits < 64) (written bits) };

    fn try_from(bits: u8) -> Result<PostSet, PostSetError> {
        if bits < 64 {
            Ok(PostSet::written(bits))
        } else {
            Err(PostSetError)
        }
    }
}

// The number that writes the set.
impl From<PostSet> for u8 {
    ghost from_gives = { λ set bits. bits ≡ set.bits };

    fn from(set: PostSet) -> u8 {
        set.bits
    }
}

// The posts of a shed, one to six.
#[derive(Clone, Copy, PartialEq, Eq, Debug)]
pub struct Posts {
    count: u8,
    ghost sized: { posts_sized count ≡ true },
}

impl Posts {
    ghost use Rattle.domain.specs.Posts.{posts};

    // A shed of so many posts, or a refusal where that is outside the sizes.
    pub fn new(count: u8) -> Result<Posts, DomainFault>
        ensures made { IsOk result ↔ (posts_sized count ≡ true) }
        ensures count { IfOk result (λ d. d.count ≡ count) }
        ensures meaning { IfOk result (λ d. ⟦<Posts as Domain>⟧.meaning d ≡ posts count) }
        ensures refused { IfErr result (λ fault. fault ≡ DomainFault.OutsideSizes) }
    {
        if count > 0 && count <= 6 {
            Ok(Posts { count })
        } else {
            Err(DomainFault::OutsideSizes)
        }
    }

    // How many sets the posts have.
    fn sets(&self) -> u8
        ensures { result ≡ 2 ^ self.now.count }
    {
        1 << self.count
    }
}

impl Domain for Posts {
    ghost use Rattle.domain.specs.Posts.{posts};
    ghost use Rattle.domain.specs.Laws.{posts_lawful};

    type Value = PostSet;

    ghost meaning = { λ d. posts d.count };

    ghost lawful = { λ d. posts_lawful d.count d.sized };

    fn classes(&self) -> u16 {
        u16::from(self.sets())
    }

    fn opening(&self) -> PostSet {
        PostSet::written(0)
    }

    fn class(&self, value: PostSet) -> u16 {
        u16::from(value.bits % self.sets())
    }

    fn rule(&self, number: u8, first: PostSet, second: PostSet) -> PostSet {
        match number {
            1 => second,
            2 => PostSet::written(first.bits | second.bits),
            3 => PostSet::written(first.bits & (second.bits ^ 63)),
            _ => first,
        }
    }

    fn check(&self, number: u8, first: PostSet, second: PostSet) -> bool {
        match number {
            0 => true,
            1 => first.bits & second.bits == first.bits,
            2 => first == second,
            3 => first.bits & second.bits == 0,
            _ => false,
        }
    }

    // Minutes have the arm on classes too: to share it, the other arms would have to be a closure, no plainer.
    fn test(&self, number: u8, inherited: u16, word: u16) -> bool {
        let classes = self.classes();
        match number {
            0 => true,
            _ if inherited >= classes || word >= classes => false,
            1 => inherited & word == 0,
            2 => inherited & word != 0,
            3 => inherited == word,
            _ => false,
        }
    }

    fn number(&self, number: u16) -> Option<PostSet> {
        if number < self.classes() {
            Some(PostSet::written(number as u8))
        } else {
            None
        }
    }
}
