//! A law of the tables. The function does nothing: its contract is what is proved.
ghost use Rattle.xs_cinput.specs.OperatorLevels.{OperatorsHaveTheirLevels};

/// The operators between two operands bind as the grammar of C has it (C11 6.5.5 to 6.5.14).
#[tactic(auto, using(crate::proofs::LevelsOfTheTable::operators_have_their_levels))]
pub fn operators_have_their_levels()
    ensures { OperatorsHaveTheirLevels }
{}
