//! Laws of the definitions of this crate. The functions do nothing: their contracts are the laws.
ghost use Rattle.xs_typemap.specs.CoreTypes.{CoreLaw};
ghost use Rattle.xs_typemap.specs.TypemapLaws.{LaterHolds, LaterReplaces, LinesLaw, TidyLaw, TypesLaw};

/// What is given later replaces what was given before, and leaves all else as it was.
#[tactic(auto, using(crate::proofs::EntriesKept::later_replaces))]
pub fn later_entries_replace()
    ensures { LaterReplaces }
{}

/// A typemap that is merged holds what the later one says, and else what the earlier one says.
#[tactic(auto, using(crate::proofs::EntriesKept::later_holds))]
pub fn later_typemap_holds()
    ensures { LaterHolds }
{}

/// A tidied type stays as it is when it is tidied again, nothing but blanks is added or lost, and
/// its parts have one space between each two.
#[tactic(auto, using(crate::proofs::PartsTidied::tidy_law))]
pub fn types_are_tidied_once()
    ensures { TidyLaw }
{}

/// The core typemap is read without a fault: it has 30 types, 20 kinds with input code, and 21 with
/// output code.
#[tactic(auto, using(crate::proofs::CoreRead::core_law))]
pub fn core_typemap_is_read()
    ensures { CoreLaw }
{}

/// A line is a heading, the name of a kind or an entry just where it is spelt so.
#[tactic(auto, using(crate::proofs::LinesSpelt::lines_law))]
pub fn lines_are_as_spelt()
    ensures { LinesLaw }
{}

/// A tidied text is a type just where it is spelt as one.
#[tactic(auto, using(crate::proofs::TypesSpelt::types_law))]
pub fn types_are_as_spelt()
    ensures { TypesLaw }
{}
