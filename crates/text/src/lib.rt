// The words of a text, with their places, kinds and numbers.
#![tactic(auto)]

pub mod cursor;
pub mod faults;
pub mod lexemes;
pub mod words;
