//! The laws of the tables. These functions do nothing: their contracts are what is proved.
ghost use Rattle.xs_perlapi.specs.Laws as laws;

/// The rows that are built have numbers and scalars as operands, and give one of these or nothing.
#[tactic(auto, using(crate::proofs::TheTable::rows_are_counted))]
pub fn rows_are_counted()
    ensures { laws.RowsAreCounted }
{}

/// A word that is written in a way has one entry as such.
#[tactic(auto, using(crate::proofs::TheTable::words_differ))]
pub fn words_differ()
    ensures { laws.WordsDiffer }
{}

/// What is found for a word of the table is its entry.
#[tactic(auto, using(crate::proofs::TheTable::words_are_found))]
pub fn words_are_found()
    ensures { laws.WordsAreFound }
{}

/// What is found for a word is an entry that is written so.
#[tactic(auto, using(crate::proofs::TheTable::found_words_stand))]
pub fn found_words_stand()
    ensures { laws.FoundWordsStand }
{}

/// Which words stand in the code as something else than a row.
#[tactic(auto, using(crate::proofs::TheTable::words_without_row))]
pub fn words_without_row()
    ensures { laws.WordsWithoutRow }
{}

/// What is written as a name has no operands.
#[tactic(auto, using(crate::proofs::TheTable::names_stand_alone))]
pub fn names_stand_alone()
    ensures { laws.NamesStandAlone }
{}

/// The words that are no row have one entry each.
#[tactic(auto, using(crate::proofs::TheTable::other_words_differ))]
pub fn other_words_differ()
    ensures { laws.OtherWordsDiffer }
{}

/// What is found for a word that is no row is its entry.
#[tactic(auto, using(crate::proofs::TheTable::other_words_are_found))]
pub fn other_words_are_found()
    ensures { laws.OtherWordsAreFound }
{}

/// The words that are operands are words of the API or of the XS interface.
#[tactic(auto, using(crate::proofs::TheTable::operand_words_stand))]
pub fn operand_words_stand()
    ensures { laws.OperandWordsStand }
{}

/// At most one format stands in front of a text.
#[tactic(auto, using(crate::proofs::TheTable::formats_differ))]
pub fn formats_differ()
    ensures { laws.FormatsDiffer }
{}

/// Each format is found where a text begins with it.
#[tactic(auto, using(crate::proofs::TheTable::formats_are_found))]
pub fn formats_are_found()
    ensures { laws.FormatsAreFound }
{}

/// The parts of a croak's text are just those that the rules give.
#[tactic(auto, using(crate::proofs::CroakTexts::croak_texts_law))]
pub fn croak_texts_law()
    ensures { laws.CroakTextsLaw }
{}
