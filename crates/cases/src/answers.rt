// What cases are answered.
use domain::DomainFault;
use domain::posts::PostSet;
use held::lines::SheetLine;
use std::fmt;
use table::faults::TableFault;

#[derive(Drop)]
pub(crate) enum Answer {
    Number(u16),
    Told(bool),
    // no value, or no word
    None,
    // a table is made
    Made,
    // a domain or a table is refused, with the refusal's number
    Refused(u8),
    // the words of a text
    Words(String),
    // what came of a sheet
    Sheet(SheetLine),
}

impl From<u16> for Answer {
    fn from(number: u16) -> Answer {
        Answer::Number(number)
    }
}

impl From<PostSet> for Answer {
    fn from(posts: PostSet) -> Answer {
        Answer::Number(u16::from(u8::from(posts)))
    }
}

impl From<bool> for Answer {
    fn from(told: bool) -> Answer {
        Answer::Told(told)
    }
}

impl From<DomainFault> for Answer {
    fn from(fault: DomainFault) -> Answer {
        Answer::Refused(fault.number())
    }
}

impl From<TableFault> for Answer {
    fn from(fault: TableFault) -> Answer {
        Answer::Refused(fault.number())
    }
}

impl fmt::Display for Answer {
    fn fmt<W: fmt::Write>(&self, f: &mut fmt::Formatter<W>) -> fmt::Result {
        match self {
            Answer::Number(number) => write!(f, "{number}"),
            Answer::Told(true) => write!(f, "yes"),
            Answer::Told(false) => write!(f, "no"),
            Answer::None => write!(f, "none"),
            Answer::Made => write!(f, "made"),
            Answer::Refused(number) => write!(f, "refused {number}"),
            Answer::Words(line) => write!(f, "{line}"),
            Answer::Sheet(line) => write!(f, "{line}"),
        }
    }
}
