//! What follows from the definitions alone.
ghost use Rattle.xs_base.specs.Laws.{CodesLaw, QualifiedNamesLaw};

/// No code stands twice in the table, each code of a fault stands in it, and the text of each code
/// is the one beside it.
pub fn each_code_has_its_text()
    ensures { CodesLaw }
{}

/// The qualified names are identifiers joined by `::`, and such texts alone.
#[tactic(auto, using(crate::proofs::Qualified::qualified_joined, crate::proofs::Qualified::joined_qualified))]
pub fn qualified_names_are_joined()
    ensures { QualifiedNamesLaw }
{}
