// Domains and drafts as cases write them, whatever their numbers come from.
#![tactic(auto)]

pub mod domains;
pub mod drafts;
pub mod faults;
pub mod numbers;
mod own_errors;
#[cfg(test)]
mod tests;
