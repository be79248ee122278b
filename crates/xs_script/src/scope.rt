//! What the commands so far have declared.
ghost use Rattle.std.specs.Prelude.{◌≡◌};
ghost use Rattle.xs_script.specs.Scope as spec;

use xs_base::{Bytes, Items, is_among_names};

/// The names that the commands so far have declared, and how many commands they are.
#[derive(Drop)]
pub struct Scope {
    /// Each variable, also one that was dropped since.
    pub variables: Items<Bytes>,
    pub dropped: Items<Bytes>,
    pub subs: Items<Bytes>,
    pub commands: u32,
}

/// Whether a variable is declared and was not dropped.
pub fn is_alive(scope: &Scope, name: &[u8]) -> bool
    ensures { result ≡ spec.is_alive scope.now name.now }
{
    is_among_names(scope.variables.as_slice(), name)
        && !is_among_names(scope.dropped.as_slice(), name)
}
