// Tables: the productions and spellings that a depot fills in.
#![tactic(auto)]

pub mod drafts;
pub mod faults;
pub mod kinds;
pub mod made;
pub mod spellings;
