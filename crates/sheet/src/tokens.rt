// What a word offers to a reader.
ghost use Rattle.std.specs.Prelude.{◌≡◌};
ghost use Rattle.table.specs.Rules.{spellings};
ghost use Rattle.text.specs.Words.{seen};
ghost use Rattle.sheet.specs.Tokens.{token};

use crate::faults::Fault;
use domain::Domain;
use table::made::Table;
use text::words::Word;

// A kind and a value.
#[derive(Clone, Copy, PartialEq, Eq, Debug)]
pub struct Token<V> {
    pub kind: u8,
    pub value: V,
}

// The word's kind in the table and the domain's value of its number. Table and domain stand apart, here and where kinds are told: a struct of
// both is a passed table, and one of untested ones would be made for these calls alone, no plainer.
pub fn tokenize<D: Domain>(
    word: &Word<'_>,
    table: &Table,
    domain: &D,
) -> Result<Token<D::Value>, Fault>
    ensures { result ≡ token (D.meaning domain.now) (spellings table.now.draft) (seen word.now) }
{
    let lexeme = word.lexeme(table)?;
    let value = lexeme.value(domain)?;
    Ok(Token {
        kind: lexeme.kind,
        value,
    })
}
