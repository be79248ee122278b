//! Laws of the definitions, each proved as the contract of a function without a body.
ghost use Rattle.xs_values.specs.Laws.{CommonKindIsSymmetric, ConversionIsTheNumber, DivisionIsWhole};
ghost use Rattle.xs_values.specs.Laws.{IvsAreReadBack, KindsHaveTheirWidth, LongIsInTheTable};
ghost use Rattle.xs_values.specs.Laws.{PromotionKeepsNumbers, RemaindersTrapAsQuotients, ResultsAreNumbers};
ghost use Rattle.xs_values.specs.Laws.{TextsAreReadBack, UnaryResultsAreNumbers, UvsAreConversions, UvsAreReadBack};

/// A kind of n bits has 2^n numbers, and promotion keeps a number.
#[tactic(auto, using(crate::proofs::Ranges::kinds_have_their_width, crate::proofs::Ranges::promotion_keeps))]
pub fn kinds_have_their_numbers()
    ensures width { KindsHaveTheirWidth }
    ensures promoted { PromotionKeepsNumbers }
{}

/// The common kind of two operands does not depend on which of them stands left.
#[tactic(auto, using(crate::proofs::Ranges::common_symmetric))]
pub fn common_kind_is_symmetric()
    ensures { CommonKindIsSymmetric }
{}

/// Conversion to a kind but `Bool` gives the number of the kind that differs by a multiple of
/// 2^bits, and there is one such number.
pub fn conversion_is_the_number()
    ensures { ConversionIsTheNumber }
{}

/// (a / b) * b + a % b is a, and `%` traps where `/` does.
#[tactic(auto, using(crate::proofs::Results::division_is_whole, crate::proofs::Results::remainders_trap))]
pub fn division_is_whole()
    ensures whole { DivisionIsWhole }
    ensures traps { RemaindersTrapAsQuotients }
{}

/// What an operator gives is a number of the kind that `result_kind` or `unary_kind` answers, in
/// its range.
pub fn results_are_numbers()
    ensures two { ResultsAreNumbers }
    ensures one { UnaryResultsAreNumbers }
{}

/// A UV is the number of a value, converted to U64.
#[tactic(auto, using(crate::proofs::Wrapping::uv_is))]
pub fn uvs_are_conversions()
    ensures { UvsAreConversions }
{}

/// The text of a number gives the number again.
#[tactic(auto, using(crate::proofs::TextsBack::texts_back, crate::proofs::TextsBack::ivs_back, crate::proofs::TextsBack::uvs_back))]
pub fn texts_are_read_back()
    ensures texts { TextsAreReadBack }
    ensures ivs { IvsAreReadBack }
    ensures uvs { UvsAreReadBack }
{}

/// `long` has one kind, in the table of types and in the suffixes of literals.
#[tactic(auto, using(crate::proofs::Ranges::long_in_table))]
pub fn long_is_in_the_table()
    ensures { LongIsInTheTable }
{}
