// Whole sheets: what each word offers, and where a sheet is denied.
#![tactic(auto)]

pub mod faults;
pub mod kinds;
pub mod tokens;
