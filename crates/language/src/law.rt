// The law of one language, for every domain.
ghost use Rattle.language.specs.Guides.{TablesGuide};
ghost use Rattle.language.specs.Law.{Law};

use domain::Domain;

// Names the law for the domain's meaning; it computes nothing.
pub fn one_language<D: Domain>(domain: &D)
    ensures { Law (D.meaning domain.now) }
{}

// Names the theorem that every made table is one that the law speaks of; it computes nothing.
#[tactic(auto, using(crate::proofs::Guides::tables_guide))]
pub fn tables_guide()
    ensures { TablesGuide }
{}
