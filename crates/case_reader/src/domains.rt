// Domains as cases write them.
use crate::faults::CaseError;
use crate::numbers::{CaseNumbers, Numbers};
use crate::own_errors::OwnErrors;
use domain::DomainFault;
use domain::minutes::Minutes;
use std::alloc::Global;

// A limit, and a count of cuts: the Minutes of them, or their refusal.
pub fn read_minutes<N: Numbers>(
    heap: Global,
    from: &mut N,
) -> anyhow::Result<Result<Minutes, DomainFault>> {
    let mut numbers = OwnErrors::of(from);
    read_case_minutes(heap, &mut numbers).map_err(|error| numbers.why(error))
}

// The same, from numbers with small errors.
pub fn read_case_minutes<N: CaseNumbers>(
    heap: Global,
    from: &mut N,
) -> Result<Result<Minutes, DomainFault>, CaseError> {
    let limit = from.short()?;
    let count = from.count()?;
    let cuts = (0..count).map(|_| from.short()).try_collect(heap)?;
    Ok(Minutes::new(limit, cuts))
}
