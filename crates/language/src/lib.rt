// The language of a table: what its productions derive, what a reader reads, and the law that both are one.
#![tactic(auto)]

pub mod cases;
pub mod faults;
pub mod law;
