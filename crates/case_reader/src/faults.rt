// Why a case is not read.
use std::alloc::AllocError;
use std::num::{ParseIntError, TryFromIntError};
use thiserror::Error;

// No `anyhow::Error`: each number gives a Result, and one with a text of its own is so large that reading took twice as long.
#[derive(Debug, Drop, Error)]
pub enum CaseError {
    // the program that prints it reads a case from each line
    #[error("the line ends too early")]
    EndsEarly,
    #[error("no number")]
    NoNumber,
    #[error(transparent)]
    BadDigits(ParseIntError),
    #[error(transparent)]
    TooLarge(#[from] TryFromIntError),
    #[error("no such item")]
    NoItem,
    #[error(transparent)]
    NoMemory(#[from(alloc)] AllocError),
}
