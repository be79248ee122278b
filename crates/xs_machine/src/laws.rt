//! Laws above the machine. These functions do nothing: their contracts are what is proved.
ghost use Rattle.xs_machine.specs.Laws.{CallMeans, ExprFollows, MachineFollows, PlacesDoNotMatter, RunEnds};
ghost use Rattle.xs_machine.specs.Dispatch.{counted_rows};
ghost use Rattle.xs_ctree.specs.TypedTree.{Code};

/// From an expression, and from a statement, with any work after it the machine comes to where its
/// meaning says.
pub fn machine_follows_meaning()
    ensures exprs { (code : Code) → ExprFollows counted_rows code }
    ensures stmts { (code : Code) → MachineFollows counted_rows code }
{}

/// The run of a call comes to where the meaning of the function's body says.
pub fn call_means()
    ensures { (code : Code) → CallMeans code }
{}

/// A run comes to an end.
pub fn run_ends()
    ensures { (code : Code) → RunEnds code }
{}

/// Code runs as it does without the places that it tells.
pub fn places_do_not_matter()
    ensures { (code : Code) → PlacesDoNotMatter code }
{}
