//! Laws of the definitions, for all C texts.

ghost use Rattle.xs_sim.specs.Laws.{ArgumentsAreFreed, ArgumentsAreMade, NoneIsLeft, TooManyTrap, UnknownCroaks};

/// The arguments of a call are new temporaries in their order, and the end of the temporaries
/// frees them all.
#[tactic(auto, using(crate::proofs::Temporaries::all_made, crate::proofs::Temporaries::all_swept, crate::proofs::Temporaries::none_left))]
pub fn arguments_are_made_and_freed()
    ensures made { ArgumentsAreMade }
    ensures freed { ArgumentsAreFreed }
    ensures none_left { NoneIsLeft }
{}

/// A call with too many arguments traps, a call of a name that no function has croaks, and both
/// leave the stacks as they were.
#[tactic(auto, using(crate::proofs::CallEnds::too_many_called, crate::proofs::CallEnds::unknown_called))]
pub fn calls_without_a_function()
    ensures too_many { TooManyTrap }
    ensures unknown { UnknownCroaks }
{}
