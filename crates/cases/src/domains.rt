// Questions to Minutes and Posts.
use crate::answers::Answer;
use crate::words::Words;
use anyhow::{Context, anyhow, bail};
use case_reader::domains::read_case_minutes;
use case_reader::numbers::CaseNumbers;
use domain::posts::{PostSet, Posts};
use domain::{Domain, DomainFault};
use std::alloc::Global;

// A value as a case writes it.
#[derive(Clone, Copy)]
struct Written(u16);

// Never refused: the conversion is what `ask` wants of every type of value.
impl TryFrom<Written> for u16 {
    type Error = anyhow::Error;

    fn try_from(value: Written) -> anyhow::Result<u16> {
        Ok(value.0)
    }
}

impl TryFrom<Written> for PostSet {
    type Error = anyhow::Error;

    fn try_from(value: Written) -> anyhow::Result<PostSet> {
        PostSet::try_from(u8::try_from(value.0)?).map_err(|_| anyhow!("no such set of posts"))
    }
}

// What a case asks of a domain.
#[derive(Clone, Copy)]
enum Question {
    Classes,
    Opening,
    Class(Written),
    Rule(u8, Written, Written),
    Check(u8, Written, Written),
    Test(u8, u16, u16),
    Number(u16),
}

fn read_value(words: &mut Words<'_>) -> anyhow::Result<Written> {
    Ok(Written(words.short()?))
}

fn read_question(words: &mut Words<'_>) -> anyhow::Result<Question> {
    match words.name().context("no question")? {
        b"classes" => Ok(Question::Classes),
        b"opening" => Ok(Question::Opening),
        b"class" => Ok(Question::Class(read_value(words)?)),
        b"rule" => Ok(Question::Rule(words.byte()?, read_value(words)?, read_value(words)?)),
        b"check" => Ok(Question::Check(words.byte()?, read_value(words)?, read_value(words)?)),
        b"test" => Ok(Question::Test(words.byte()?, words.short()?, words.short()?)),
        b"number" => Ok(Question::Number(words.short()?)),
        _ => bail!("no such question"),
    }
}

// What the domain answers; an error where a value is none of its own.
fn ask<D: Domain>(domain: &D, question: Question) -> anyhow::Result<Answer>
where
    D::Value: TryFrom<Written, Error = anyhow::Error> + Into<Answer>,
{
    Ok(match question {
        Question::Classes => domain.classes().into(),
        Question::Opening => domain.opening().into(),
        Question::Class(value) => domain.class(value.try_into()?).into(),
        Question::Rule(rule, first, second) => domain
            .rule(rule, first.try_into()?, second.try_into()?)
            .into(),
        Question::Check(check, first, second) => domain
            .check(check, first.try_into()?, second.try_into()?)
            .into(),
        Question::Test(test, inherited, word) => domain.test(test, inherited, word).into(),
        Question::Number(number) => domain
            .number(number)
            .map_or(Answer::None, |value| value.into()),
    })
}

// The answer of a domain to the question that follows, or the domain's refusal.
fn answer<D: Domain + Drop>(
    domain: Result<D, DomainFault>,
    words: &mut Words<'_>,
) -> anyhow::Result<Answer>
where
    D::Value: TryFrom<Written, Error = anyhow::Error> + Into<Answer>,
{
    let question = read_question(words)?;
    match domain {
        Ok(domain) => ask(&domain, question),
        Err(fault) => Ok(fault.into()),
    }
}

pub(crate) fn minutes_case(heap: Global, words: &mut Words<'_>) -> anyhow::Result<Answer> {
    answer(read_case_minutes(heap, words)?, words)
}

pub(crate) fn posts_case(words: &mut Words<'_>) -> anyhow::Result<Answer> {
    answer(Posts::new(words.byte()?), words)
}
