// Sheets worked by hand.
ghost use Rattle.language.specs.Cases.{Worked};

// Names the theorem of the worked cases; it computes nothing.
#[tactic(auto, using(crate::proofs::Worked::worked))]
pub fn worked_cases()
    ensures { Worked }
{}
