//! Laws of the definitions, for all texts.
ghost use Rattle.xs_ctok.specs.Laws.{CodesLaw, DigitLaw, JoinedLaw, PlacedLaw, RelinedLaw, SpelledLaw, SuffixLaw};

/// Lines that have tokens add these to the tokens of the lines after them, and lines that have them
/// alone have them together.
#[tactic(auto, using(crate::proofs::JoinedLines::joined_law))]
pub fn joined_law()
    ensures { JoinedLaw }
{}

/// Lines with the same texts have the same tokens but for the numbers of the lines, or faults of
/// the same code.
#[tactic(auto, using(crate::proofs::OtherLines::relined))]
pub fn relined_law()
    ensures { RelinedLaw }
{}

/// The tokens of lines are just those that the rules of their spelling give, each the longest that
/// begins at its byte, and the fault of lines is at the first byte at which no token begins, or at
/// the line where a comment begins that stays open.
#[tactic(auto, using(crate::proofs::LinesSpelled::spelled_law))]
pub fn spelled_law()
    ensures { SpelledLaw }
{}

/// Each token of a line stands there at its column, after the token before it.
#[tactic(auto, using(crate::proofs::LinesSpelled::placed_law))]
pub fn placed_law()
    ensures { PlacedLaw }
{}

/// The suffix of an integer is the longest that stands there.
#[tactic(auto, using(crate::proofs::LongestSuffixes::suffix_law))]
pub fn suffix_law()
    ensures { SuffixLaw }
{}

/// A decimal integer below 10 without a suffix is its digit alone. `0` counts as decimal, and has
/// the kind that it has as an octal integer.
#[tactic(auto, using(crate::proofs::DigitsAlone::digit_law))]
pub fn digit_law()
    ensures { DigitLaw }
{}

/// The codes of faults, where they do not follow from what begins at a place: integers of more than
/// 64 bits, floating constants, texts in quotes and misplaced directives.
#[tactic(auto, using(crate::proofs::CodesTold::codes_law))]
pub fn codes_law()
    ensures { CodesLaw }
{}
