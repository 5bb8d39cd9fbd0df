// The table that the program holds, and the lines that it prints.
#![tactic(auto)]

pub mod domains;
pub mod drafts;
pub mod lines;
pub mod verdicts;
