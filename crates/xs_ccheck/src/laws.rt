//! The laws of the types stage. Their functions do nothing: their contracts are what is proved.
ghost use Rattle.xs_ccheck.specs.Laws.{FaultlessLaw, FaultsAreLeastLaw, OrderedLaw, SlotsOnceLaw, SoundLaw, TypesOfFormsLaw, TypesWithoutLines};

/// The fault that is told of a file is the least of the faults of its nodes, and a file has code
/// exactly where it has none.
pub fn least_fault_law()
    ensures least { FaultsAreLeastLaw }
    ensures faultless { FaultlessLaw }
    ensures sound { SoundLaw }
    ensures ordered { OrderedLaw }
{}

/// The slots of a function are numbered, each is declared once, and a use is of the last
/// declaration of its name in scope.
#[tactic(auto, using(crate::proofs::SlotsMeant::slots_once))]
pub fn slots_once_law()
    ensures { SlotsOnceLaw }
{}

/// Each expression in the code of a file has the type that the rule of its form gives.
#[tactic(auto, using(crate::proofs::CodeTyped::types_of_forms))]
pub fn types_of_forms_law()
    ensures { TypesOfFormsLaw }
{}

/// Files that are equal but for lines have the same code, but for the places that it tells.
#[tactic(auto, using(crate::proofs::Unlined::types_without_lines))]
pub fn types_do_not_depend_on_lines()
    ensures { TypesWithoutLines }
{}
