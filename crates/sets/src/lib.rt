// Which nonterminals can be empty, and the First, Follow and Predict sets: the smallest that meet their rules.
#![tactic(auto)]

mod firsts;
mod follows;
pub mod found;
mod rounds;
mod runs;
pub mod words;
