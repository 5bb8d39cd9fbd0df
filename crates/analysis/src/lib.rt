// The strong test, whether one word of sight decides, and the tables that pass it.
#![tactic(auto)]

mod answers;
mod contested;
pub mod faults;
pub mod passed;
mod places;
mod search;
mod testable;
pub mod verdict;
