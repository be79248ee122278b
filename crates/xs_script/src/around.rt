//! The brackets that are open where an expression is read.
ghost use Rattle.std.specs.Prelude.{◌≡◌, ◌∷◌, ◌<◌, ◌^◌, [], MatchOption, OnOk, length};
ghost use Rattle.xs_script.specs.Brackets.{around_of, bracket};

use crate::command::E;
use xs_base::Bytes;

/// An open bracket, with what was read in it.
#[derive(Drop)]
pub enum Open {
    /// `[` and elements.
    List(Vec<E>),
    /// `{`, entries, and the key whose value comes next.
    Hash(Vec<(Bytes, E)>, Bytes),
}

/// How many brackets are open.
#[tactic(auto, using(crate::proofs::Arounds::arounds))]
pub fn depth(around: &Vec<Open>) -> usize
    ensures value { result ≡ length (around_of around.now.items) }
    ensures few { result < 2 ^ 63 }
{
    around.len()
}

/// Removes the innermost bracket, if one is open.
#[tactic(auto, using(crate::proofs::Arounds::arounds))]
pub fn pop_open(around: &mut Vec<Open>) -> Option<Open>
    ensures { MatchOption result (around_of around.old.items
        ≡ []) (λ inner. around_of around.old.items ≡ bracket inner ∷ around_of around.new.items) }
{
    around.pop()
}
