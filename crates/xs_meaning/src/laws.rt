//! Laws of the declared meaning, for all interfaces.

ghost use Rattle.xs_meaning.specs.Laws.{CallsOnlyAdd};

/// A call changes no scalar that was made before it, and removes none.
#[tactic(auto, using(crate::proofs::StoresGrow::calls_only_add))]
pub fn declared_calls_only_add()
    ensures { CallsOnlyAdd }
{}
