//! The brackets that are open in a default.
ghost use Rattle.std.specs.Prelude.{◌≡◌, ◌∷◌, [], MatchOption, OnOk};
ghost use Rattle.xs_params.specs.ParamSteps.{are_none};

use std::alloc::Global;
use std::marker::Model;
use xs_base::Memory;

/// A bracket: `(`, `[` or `{`.
#[derive(Clone, Copy, Debug, PartialEq, Eq)]
pub enum Bracket {
    Round,
    Square,
    Curly,
}

/// The brackets that are open. Contracts see the list of them from the innermost on.
#[derive(Debug, Drop)]
pub struct Opens {
    brackets: Vec<Bracket>,
}

impl Model for Opens {
    ghost use Rattle.std.specs.Prelude.{List, reverse};
    ghost use Rattle.xs_params.specs.declared.opens.Bracket.{Bracket as Kind};

    ghost Value = { List Kind };

    ghost view = { λ o. reverse o.brackets.items };
}

impl Opens {
    /// None.
    pub fn new(alloc: Global) -> Opens
        ensures { result ≡ [] }
    {
        Opens {
            brackets: Vec::new(alloc),
        }
    }

    /// Whether none is open.
    #[tactic(auto, using(crate::proofs::Innermost::innermost))]
    pub fn is_empty(&self) -> bool
        ensures { result ≡ are_none self.now }
    {
        self.brackets.is_empty()
    }

    /// Opens one more.
    #[tactic(auto, using(crate::proofs::Innermost::innermost))]
    pub fn open(&mut self, bracket: Bracket) -> Result<(), Memory>
        ensures { OnOk result (self.new ≡ bracket ∷ self.old) }
    {
        self.brackets.push(bracket)?;
        Ok(())
    }

    /// Closes the innermost, if one is open.
    #[tactic(auto, using(crate::proofs::Innermost::innermost))]
    pub fn close(&mut self) -> Option<Bracket>
        ensures { MatchOption result (self.old ≡ []) (λ inner. self.old ≡ inner ∷ self.new) }
    {
        self.brackets.pop()
    }
}
