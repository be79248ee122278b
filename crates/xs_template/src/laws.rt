//! Laws of the definitions of this crate. The functions do nothing: their contracts are the laws.
ghost use Rattle.xs_template.specs.TemplateLaws.{AssignmentLaw};

/// A template is taken for an assignment just where, after blanks and line ends, `$arg` and a
/// single `=` stand in front.
#[tactic(auto, using(crate::proofs::Assignments::assignment_law))]
pub fn assignments_are_told()
    ensures { AssignmentLaw }
{}
