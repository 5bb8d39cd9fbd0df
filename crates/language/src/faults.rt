// Why a reader says no.

// The first act of a call to fail, by the lowest of its numbers.
#[derive(Clone, Copy, PartialEq, Eq, Debug)]
pub enum ReadingFault {
    // 17: the offered kind is none of the table's
    UnknownKind,
    // 18: nothing is outstanding
    NothingOutstanding,
    // 19: no production may be predicted
    NoProduction,
    // 20: one prediction too many in one sight
    TooManyPredictions,
    // 21: one open production too many
    TooManyOpen,
    // 22: one trail entry too many
    TrailFull,
    // 23: the outstanding kind differs from the one in sight
    OtherKind,
    // 24: a check says no
    CheckSaysNo,
}
