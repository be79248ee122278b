//! Laws of the definitions, for all modules and scripts.

ghost use Rattle.xs_call.specs.Laws.{EachFileGivesSums, EachTextLeavesNothing, EachTextRunsAsDeclared};
ghost use Rattle.xs_call.specs.Headline.{RunsAsDeclared, StaysExact};
ghost use Rattle.xs_call.specs.Laws.{TextResolves};

/// The typed code of the glue of a module whose XSUBs are sums, run by the counted machine on
/// any script, gives the transcript that the module's interface declares. After the boot and after
/// each command that goes on no counted scalar, no temporary, no mark and no scope is left, and the
/// next scalar has the name that the declared store gives next.
#[tactic(auto, using(crate::proofs::HeadlineHolds::runs_as_declared, crate::proofs::HeadlineHolds::stays_exact_after))]
pub fn glue_runs_as_declared()
    ensures transcript { RunsAsDeclared }
    ensures exact { StaysExact }
{}

/// Each XS file that is read gives a module whose XSUBs are sums, so the law above holds of it.
pub fn files_give_sums()
    ensures { EachFileGivesSums }
{}

/// The C text that is written for an XS file, read and run, does what the file declares: for each
/// XS file that is read, and each script of calls. And it leaves nothing after the boot or after a
/// command that goes on.
#[tactic(auto, using(crate::proofs::JobsJoin::text_runs, crate::proofs::JobsJoin::text_leaves_nothing))]
pub fn written_text_runs_as_declared()
    ensures transcript { EachTextRunsAsDeclared }
    ensures exact { EachTextLeavesNothing }
{}

/// A tree that is the intended one but for lines has the typed code of the glue, but for
/// places.
#[tactic(auto, using(crate::proofs::Typed::text_typed))]
pub fn written_text_resolves()
    ensures { TextResolves }
{}
