//! Laws of the definitions, for all lists.
ghost use Rattle.xs_params.specs.Laws.{ClearLaw, FormLaw, ParamsLaw, TextLaw};

/// What is read of a list is the list of the grammar that stands in front, or the first token with
/// which no list begins, or the begin of a list; and each of these is read as such.
#[tactic(auto, using(crate::proofs::ListRuns::form_law))]
pub fn form_law()
    ensures { FormLaw }
{}

/// The lists that are accepted are those of the grammar in which no parameter is at fault and
/// after which nothing stands on the line; and every other list is refused with the first fault of
/// its named parameters, or else at the first token with which no list begins.
#[tactic(auto, using(crate::proofs::ParamsTold::params_law))]
pub fn params_law()
    ensures { ParamsLaw }
{}

/// What may stand after a list on its line is blanks and whole comments, and a comment up to the
/// end of the line.
#[tactic(auto, using(crate::proofs::RestsClear::clear_law))]
pub fn clear_law()
    ensures { ClearLaw }
{}

/// The text of a default is the bytes of the source from its first column to its last, with byte 10
/// between two lines.
#[tactic(auto, using(crate::proofs::TextsStand::text_law))]
pub fn text_law()
    ensures { TextLaw }
{}
