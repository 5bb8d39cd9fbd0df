// Numbers with errors of their own.
use crate::domains::read_minutes;
use crate::drafts::read_draft;
use crate::numbers::Numbers;
use anyhow::{Context, ensure};
use domain::Domain;
use std::slice::Iter;
use std::test::Fail;
use table::drafts::Item;

// The numbers of a list, whatever they are read as.
#[derive(Drop)]
struct Plain<'a>(Iter<'a, u64>);

impl Numbers for Plain<'_> {
    fn long(&mut self) -> anyhow::Result<u64> {
        self.0.next().copied().context("the list ends")
    }
}

// What a number can be read as.
#[derive(Clone, Copy, PartialEq, Eq)]
enum Asked {
    Long,
    Short,
    Byte,
    Count,
    Choice,
}

// Numbers, each with what it has to be read as.
#[derive(Drop)]
struct Listed<'a>(Iter<'a, (Asked, u64)>);

impl Listed<'_> {
    fn number(&mut self, asked: Asked) -> anyhow::Result<u64> {
        let next = self.0.next().copied();
        let (wanted, number) = next.context("the list ends").context("no number")?;
        ensure!(asked == wanted, "asked for something else");
        Ok(number)
    }
}

impl Numbers for Listed<'_> {
    fn long(&mut self) -> anyhow::Result<u64> {
        self.number(Asked::Long)
    }

    fn short(&mut self) -> anyhow::Result<u16> {
        Ok(u16::try_from(self.number(Asked::Short)?)?)
    }

    fn byte(&mut self) -> anyhow::Result<u8> {
        Ok(u8::try_from(self.number(Asked::Byte)?)?)
    }

    fn count(&mut self) -> anyhow::Result<u64> {
        self.number(Asked::Count)
    }

    fn choice(&mut self) -> anyhow::Result<u64> {
        self.number(Asked::Choice)
    }
}

#[test]
fn each_number_has_its_width(rt: HostRuntime) -> Result<(), Fail> {
    let mut from = Plain([70_000, 65_535, 255, 4, 3, 65_536, 256, 256, 256].iter());
    assert_eq!(rt; from.long()?, 70_000);
    assert_eq!(rt; from.short()?, 65_535);
    assert_eq!(rt; from.byte()?, 255);
    assert_eq!(rt; from.count()?, 4);
    assert_eq!(rt; from.choice()?, 3);
    assert!(rt; from.short().is_err());
    assert!(rt; from.byte().is_err());
    assert!(rt; from.count().is_err());
    assert!(rt; from.choice().is_err());
    Ok(())
}

#[test]
fn minutes_are_read(rt: HostRuntime) -> Result<(), Fail> {
    let two_cuts = [
        (Asked::Short, 1_000),
        (Asked::Count, 2),
        (Asked::Short, 300),
        (Asked::Short, 600),
    ];
    let made = read_minutes(rt.alloc(), &mut Listed(two_cuts.iter()))?;
    let minutes = made.map_err(|_| "two cuts within the limit are refused")?;
    assert_eq!(rt; minutes.class(299), 0);
    assert_eq!(rt; minutes.class(300), 1);
    assert_eq!(rt; minutes.class(600), 2);

    let limit_0 = [(Asked::Short, 0), (Asked::Count, 0)];
    let refused = read_minutes(rt.alloc(), &mut Listed(limit_0.iter()))?;
    assert!(rt; refused.is_err());

    let cut_short = [(Asked::Short, 1_000), (Asked::Count, 1)];
    let error = read_minutes(rt.alloc(), &mut Listed(cut_short.iter()))
        .err()
        .ok_or("no error")?;
    let told = format!(in rt.alloc(); "{error:#}")?;
    assert_eq!(rt; told.as_str(), "no number: the list ends");
    Ok(())
}

#[test]
fn drafts_are_read(rt: HostRuntime) -> Result<(), Fail> {
    let one_production = [
        // nonterminals, kinds, and how many productions
        (Asked::Byte, 1),
        (Asked::Byte, 2),
        (Asked::Count, 1),
        // left side, test and sight set
        (Asked::Byte, 0),
        (Asked::Byte, 5),
        (Asked::Long, 3),
        // the result's rule and slots
        (Asked::Byte, 7),
        (Asked::Byte, 0),
        (Asked::Byte, 1),
        // how many items, and one that is a kind
        (Asked::Count, 1),
        (Asked::Choice, 1),
        (Asked::Byte, 1),
    ];
    let draft = read_draft(rt.alloc(), &mut Listed(one_production.iter()))?;
    assert_eq!(rt; draft.nonterminals, 1);
    assert_eq!(rt; draft.kinds, 2);
    assert_eq!(rt; draft.spellings.len(), 0);
    assert_eq!(rt; draft.productions.len(), 1);
    let production = &draft.productions[0];
    assert_eq!(rt; production.test, 5);
    assert_eq!(rt; u64::from(production.sight), 3);
    assert_eq!(rt; production.result.number, 7);
    assert_eq!(rt; production.result.second, 1);
    assert_eq!(rt; production.items.as_slice(), [Item::Kind(1)].as_slice());

    // an error of the source's, with its cause, and one of the reader's
    let mut no_item = one_production;
    no_item[10] = (Asked::Choice, 4);
    for (numbers, want) in [
        (&one_production[..4], "no number: the list ends"),
        (&no_item[..], "no such item"),
    ] {
        let error = read_draft(rt.alloc(), &mut Listed(numbers.iter()))
            .err()
            .ok_or("no error")?;
        let told = format!(in rt.alloc(); "{error:#}")?;
        assert_eq!(rt; told.as_str(), want);
    }
    Ok(())
}
