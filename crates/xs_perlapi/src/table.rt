//! The table of Perl's API: one entry for each word of the API that XS code writes.
ghost use Rattle.std.specs.Prelude.{◌≡◌, map, option_map};
ghost use Rattle.xs_perlapi.specs.Table as table;

use crate::row::{ApiType, CodeForm, Mark, ResultState, Row, Stands, Written};
use xs_values::Kind;

/// An entry: the word; what stands in the code for it; how the word is written; where it may stand;
/// the types of the operands; the type of the result; the marks; and the state of the result.
pub type Entry = (
    &'static str,
    CodeForm,
    Written,
    Stands,
    &'static [ApiType],
    ApiType,
    &'static [Mark],
    ResultState,
);

// `IV`, the widest signed integer of Perl.
const IV: ApiType = ApiType::Number(Kind::I64);

// `UV`, the widest unsigned integer of Perl, and `STRLEN`, which is as wide.
const UV: ApiType = ApiType::Number(Kind::U64);

// `int` and `I32`.
const INT: ApiType = ApiType::Number(Kind::I32);

// C's `bool`.
const BOOL: ApiType = ApiType::Number(Kind::Bool);

/// Perl's API. A word that is written in two ways has an entry for each.
#[rattlefmt::skip]
pub static ROWS: [Entry; 96] = [
    // Scalars that are made (perlapi, "SV Handling"; perlguts, "Working with SVs").
    ("newSViv", CodeForm::Unbuilt(Row::NewSvIv), Written::Call, Stands::Anywhere, &[IV], ApiType::Scalar, &[], ResultState::OwnFresh),
    ("newSVuv", CodeForm::Unbuilt(Row::NewSvUv), Written::Call, Stands::Anywhere, &[UV], ApiType::Scalar, &[], ResultState::OwnFresh),
    ("newSV", CodeForm::Unbuilt(Row::NewSv), Written::Call, Stands::Anywhere, &[ApiType::Zero], ApiType::Scalar, &[], ResultState::OwnFresh),
    ("newSVpv", CodeForm::Unbuilt(Row::NewSvPv), Written::Call, Stands::Anywhere, &[ApiType::Text, UV], ApiType::Scalar, &[], ResultState::OwnFresh),
    ("newSVpvn", CodeForm::Unbuilt(Row::NewSvPvn), Written::Call, Stands::Anywhere, &[ApiType::Text, UV], ApiType::Scalar, &[], ResultState::OwnFresh),
    ("newSVsv", CodeForm::Unbuilt(Row::NewSvSv), Written::Call, Stands::Anywhere, &[ApiType::Scalar], ApiType::Scalar, &[], ResultState::OwnFresh),

    // References (perlguts, "References").
    ("newRV", CodeForm::Unbuilt(Row::NewRv), Written::Call, Stands::Anywhere, &[ApiType::Scalar], ApiType::Scalar, &[], ResultState::OwnFresh),
    ("newRV_inc", CodeForm::Unbuilt(Row::NewRv), Written::Call, Stands::Anywhere, &[ApiType::Scalar], ApiType::Scalar, &[], ResultState::OwnFresh),
    ("newRV_noinc", CodeForm::Unbuilt(Row::NewRvNoInc), Written::Call, Stands::Anywhere, &[ApiType::Scalar], ApiType::Scalar, &[Mark::GivesUp(1)], ResultState::OwnFresh),
    ("SvRV", CodeForm::Unbuilt(Row::SvRv), Written::Call, Stands::Anywhere, &[ApiType::Scalar], ApiType::Scalar, &[], ResultState::Borrowed),
    ("SvTYPE", CodeForm::Unbuilt(Row::SvType), Written::Call, Stands::Anywhere, &[ApiType::Scalar], INT, &[], ResultState::None),

    // Counts and mortals (perlguts, "Reference Counts and Mortality").
    ("sv_newmortal", CodeForm::Row(Row::SvNewMortal), Written::Call, Stands::Anywhere, &[], ApiType::Scalar, &[], ResultState::MortalFresh),
    ("sv_2mortal", CodeForm::Unbuilt(Row::Sv2Mortal), Written::Call, Stands::Anywhere, &[ApiType::Scalar], ApiType::Scalar, &[], ResultState::Mortal),
    ("SvREFCNT_inc", CodeForm::Unbuilt(Row::SvRefCntInc), Written::Call, Stands::Anywhere, &[ApiType::Scalar], ApiType::Scalar, &[], ResultState::Shared),
    ("SvREFCNT_dec", CodeForm::Unbuilt(Row::SvRefCntDec), Written::Call, Stands::Anywhere, &[ApiType::Scalar], ApiType::Void, &[Mark::GivesUp(1), Mark::Releases], ResultState::None),

    // Tests and values of scalars (perlapi, "SV Flags" and "SV Handling").
    ("SvOK", CodeForm::Unbuilt(Row::SvOk), Written::Call, Stands::Anywhere, &[ApiType::Scalar], INT, &[], ResultState::None),
    ("SvROK", CodeForm::Unbuilt(Row::SvRok), Written::Call, Stands::Anywhere, &[ApiType::Scalar], INT, &[], ResultState::None),
    ("SvIOK", CodeForm::Unbuilt(Row::SvIok), Written::Call, Stands::Anywhere, &[ApiType::Scalar], INT, &[], ResultState::None),
    ("SvPOK", CodeForm::Unbuilt(Row::SvPok), Written::Call, Stands::Anywhere, &[ApiType::Scalar], INT, &[], ResultState::None),
    ("SvTRUE", CodeForm::Unbuilt(Row::SvTrue), Written::Call, Stands::Anywhere, &[ApiType::Scalar], INT, &[], ResultState::None),
    ("SvIV", CodeForm::Row(Row::SvIv), Written::Call, Stands::Anywhere, &[ApiType::Scalar], IV, &[Mark::Croaks], ResultState::None),
    ("SvUV", CodeForm::Unbuilt(Row::SvUv), Written::Call, Stands::Anywhere, &[ApiType::Scalar], UV, &[Mark::Croaks], ResultState::None),
    ("SvPV_nolen", CodeForm::Unbuilt(Row::SvPvNoLen), Written::Call, Stands::Anywhere, &[ApiType::Scalar], ApiType::Text, &[Mark::Croaks], ResultState::Text),
    ("SvPV", CodeForm::TextWithLength, Written::Call, Stands::Anywhere, &[ApiType::Scalar, ApiType::LengthVariable], ApiType::Text, &[Mark::Croaks], ResultState::Text),

    // Texts (the C standard's string.h; perlapi, "String Handling").
    ("strlen", CodeForm::Unbuilt(Row::StrLen), Written::Call, Stands::Anywhere, &[ApiType::Text], UV, &[], ResultState::None),
    ("strcmp", CodeForm::Unbuilt(Row::StrCmp), Written::Call, Stands::Anywhere, &[ApiType::Text, ApiType::Text], INT, &[], ResultState::None),
    ("strEQ", CodeForm::Unbuilt(Row::StrEq), Written::Call, Stands::Anywhere, &[ApiType::Text, ApiType::Text], INT, &[], ResultState::None),
    ("strNE", CodeForm::Unbuilt(Row::StrNe), Written::Call, Stands::Anywhere, &[ApiType::Text, ApiType::Text], INT, &[], ResultState::None),

    // Scalars that are set (perlguts, "Working with SVs").
    ("sv_setiv", CodeForm::Row(Row::SvSetIv), Written::Call, Stands::Anywhere, &[ApiType::Scalar, IV], ApiType::Void, &[Mark::Croaks, Mark::Sets], ResultState::None),
    ("sv_setuv", CodeForm::Unbuilt(Row::SvSetUv), Written::Call, Stands::Anywhere, &[ApiType::Scalar, UV], ApiType::Void, &[Mark::Croaks, Mark::Sets], ResultState::None),
    ("sv_setpv", CodeForm::Unbuilt(Row::SvSetPv), Written::Call, Stands::Anywhere, &[ApiType::Scalar, ApiType::Text], ApiType::Void, &[Mark::Croaks, Mark::Sets], ResultState::None),
    ("sv_setpvn", CodeForm::Unbuilt(Row::SvSetPvn), Written::Call, Stands::Anywhere, &[ApiType::Scalar, ApiType::Text, UV], ApiType::Void, &[Mark::Croaks, Mark::Sets], ResultState::None),
    ("sv_setsv", CodeForm::Unbuilt(Row::SvSetSv), Written::Call, Stands::Anywhere, &[ApiType::Scalar, ApiType::Scalar], ApiType::Void, &[Mark::Croaks, Mark::Sets], ResultState::None),
    ("sv_catpv", CodeForm::Unbuilt(Row::SvCatPv), Written::Call, Stands::Anywhere, &[ApiType::Scalar, ApiType::Text], ApiType::Void, &[Mark::Croaks, Mark::Sets], ResultState::None),
    ("sv_catpvn", CodeForm::Unbuilt(Row::SvCatPvn), Written::Call, Stands::Anywhere, &[ApiType::Scalar, ApiType::Text, UV], ApiType::Void, &[Mark::Croaks, Mark::Sets], ResultState::None),

    // Arrays (perlguts, "Working with AVs").
    ("newAV", CodeForm::Unbuilt(Row::NewAv), Written::Call, Stands::Anywhere, &[], ApiType::Array, &[], ResultState::OwnFresh),
    ("av_len", CodeForm::Unbuilt(Row::AvLen), Written::Call, Stands::Anywhere, &[ApiType::Array], IV, &[], ResultState::None),
    ("av_fetch", CodeForm::Unbuilt(Row::AvFetch), Written::Call, Stands::Anywhere, &[ApiType::Array, IV, ApiType::Zero], ApiType::Place, &[], ResultState::Place),
    ("av_push", CodeForm::Unbuilt(Row::AvPush), Written::Call, Stands::Anywhere, &[ApiType::Array, ApiType::Scalar], ApiType::Void, &[Mark::GivesUp(2), Mark::MovesPlaces], ResultState::None),
    ("av_store", CodeForm::Unbuilt(Row::AvStore), Written::Call, Stands::Anywhere, &[ApiType::Array, IV, ApiType::Scalar], ApiType::Void, &[Mark::GivesUp(3), Mark::Releases, Mark::MovesPlaces], ResultState::None),
    ("av_pop", CodeForm::Unbuilt(Row::AvPop), Written::Call, Stands::Anywhere, &[ApiType::Array], ApiType::Scalar, &[Mark::MovesPlaces], ResultState::Own),
    ("av_shift", CodeForm::Unbuilt(Row::AvShift), Written::Call, Stands::Anywhere, &[ApiType::Array], ApiType::Scalar, &[Mark::MovesPlaces], ResultState::Own),
    ("av_clear", CodeForm::Unbuilt(Row::AvClear), Written::Call, Stands::Anywhere, &[ApiType::Array], ApiType::Void, &[Mark::Releases, Mark::MovesPlaces], ResultState::None),

    // Hashes (perlguts, "Working with HVs").
    ("newHV", CodeForm::Unbuilt(Row::NewHv), Written::Call, Stands::Anywhere, &[], ApiType::Hash, &[], ResultState::OwnFresh),
    ("hv_store", CodeForm::Unbuilt(Row::HvStore), Written::Call, Stands::Anywhere, &[ApiType::Hash, ApiType::Text, INT, ApiType::Scalar, ApiType::Zero], ApiType::Void, &[Mark::GivesUp(4), Mark::Releases, Mark::MovesPlaces], ResultState::None),
    ("hv_fetch", CodeForm::Unbuilt(Row::HvFetch), Written::Call, Stands::Anywhere, &[ApiType::Hash, ApiType::Text, INT, ApiType::Zero], ApiType::Place, &[], ResultState::Place),
    ("hv_exists", CodeForm::Unbuilt(Row::HvExists), Written::Call, Stands::Anywhere, &[ApiType::Hash, ApiType::Text, INT], INT, &[], ResultState::None),
    ("hv_delete", CodeForm::Unbuilt(Row::HvDelete), Written::Call, Stands::Anywhere, &[ApiType::Hash, ApiType::Text, INT, ApiType::Discard], ApiType::Void, &[Mark::Releases, Mark::MovesPlaces], ResultState::None),

    // Objects (perlguts, "Blessed References and Class Objects").
    ("sv_setref_pv", CodeForm::Unbuilt(Row::SvSetRefPv), Written::Call, Stands::Anywhere, &[ApiType::Scalar, ApiType::Text, ApiType::UntypedPointer], ApiType::Scalar, &[Mark::Croaks, Mark::Sets], ResultState::Same),
    ("sv_bless", CodeForm::Unbuilt(Row::SvBless), Written::Call, Stands::Anywhere, &[ApiType::Scalar, ApiType::Stash], ApiType::Scalar, &[], ResultState::Same),
    ("gv_stashpv", CodeForm::Operand, Written::Operand, Stands::Anywhere, &[ApiType::Literal, ApiType::AddGlob], ApiType::Stash, &[], ResultState::None),
    ("sv_isobject", CodeForm::Unbuilt(Row::SvIsObject), Written::Call, Stands::Anywhere, &[ApiType::Scalar], INT, &[], ResultState::None),
    ("sv_isa", CodeForm::Unbuilt(Row::SvIsA), Written::Call, Stands::Anywhere, &[ApiType::Scalar, ApiType::Text], INT, &[], ResultState::None),
    ("sv_derived_from", CodeForm::Unbuilt(Row::SvDerivedFrom), Written::Call, Stands::Anywhere, &[ApiType::Scalar, ApiType::Text], INT, &[], ResultState::None),

    // Records of C (perlapi, "Casting" and "Memory Management").
    ("INT2PTR", CodeForm::RecordOf, Written::Call, Stands::Anywhere, &[ApiType::RecordPointer, IV], ApiType::Record, &[], ResultState::None),
    ("PTR2IV", CodeForm::Unbuilt(Row::Ptr2Iv), Written::Call, Stands::Anywhere, &[ApiType::Record], IV, &[], ResultState::None),
    ("Newxz", CodeForm::NewRecord, Written::Call, Stands::Anywhere, &[ApiType::RecordVariable, ApiType::One, ApiType::RecordName], ApiType::Void, &[], ResultState::None),
    ("Safefree", CodeForm::Unbuilt(Row::SafeFree), Written::Call, Stands::Anywhere, &[ApiType::Record], ApiType::Void, &[], ResultState::None),

    // Immortals (perlapi, "SV Handling" and "Errno"; perlcall, "G_EVAL").
    ("boolSV", CodeForm::Unbuilt(Row::BoolSv), Written::Call, Stands::Anywhere, &[BOOL], ApiType::Scalar, &[], ResultState::Immortal),
    ("PL_sv_undef", CodeForm::Unbuilt(Row::PlSvUndef), Written::Address, Stands::Anywhere, &[], ApiType::Scalar, &[], ResultState::Immortal),
    ("PL_sv_yes", CodeForm::Unbuilt(Row::PlSvYes), Written::Address, Stands::Anywhere, &[], ApiType::Scalar, &[], ResultState::Immortal),
    ("PL_sv_no", CodeForm::Unbuilt(Row::PlSvNo), Written::Address, Stands::Anywhere, &[], ApiType::Scalar, &[], ResultState::Immortal),
    ("ERRSV", CodeForm::Unbuilt(Row::ErrSv), Written::Name, Stands::Anywhere, &[], ApiType::Scalar, &[], ResultState::Immortal),

    // The argument stack of an XS function (perlapi, "Stack Manipulation Macros"; perlxs, "The
    // Argument Stack").
    ("dXSARGS", CodeForm::Row(Row::Entry), Written::Statement, Stands::AtEntry, &[], ApiType::Void, &[], ResultState::None),
    ("ST", CodeForm::Row(Row::StRead), Written::Call, Stands::InXsFunctions, &[ApiType::Integer], ApiType::Scalar, &[], ResultState::Argument),
    ("ST", CodeForm::Row(Row::StSet), Written::Assignment, Stands::InXsFunctions, &[ApiType::Scalar, ApiType::Integer], ApiType::Scalar, &[Mark::MovesPlaces], ResultState::Held),
    ("XSRETURN", CodeForm::Row(Row::XsReturn), Written::Call, Stands::InXsFunctions, &[ApiType::Integer], ApiType::Void, &[], ResultState::None),
    ("XSRETURN_EMPTY", CodeForm::Unbuilt(Row::XsReturnEmpty), Written::Statement, Stands::InXsFunctions, &[], ApiType::Void, &[], ResultState::None),
    ("XSRETURN_UNDEF", CodeForm::Unbuilt(Row::XsReturnUndef), Written::Statement, Stands::InXsFunctions, &[], ApiType::Void, &[], ResultState::None),
    ("XSRETURN_YES", CodeForm::Row(Row::XsReturnYes), Written::Statement, Stands::InXsFunctions, &[], ApiType::Void, &[], ResultState::None),
    ("XSRETURN_NO", CodeForm::Unbuilt(Row::XsReturnNo), Written::Statement, Stands::InXsFunctions, &[], ApiType::Void, &[], ResultState::None),
    ("return", CodeForm::Row(Row::XsEnd), Written::Statement, Stands::InXsFunctions, &[], ApiType::Void, &[], ResultState::None),

    // The stack in a callback and in PPCODE (perlcall, "Passing Parameters"; perlguts, "Putting a C
    // value on Perl stack").
    ("SP", CodeForm::Unbuilt(Row::ResetStack), Written::Statement, Stands::InXsFunctions, &[ApiType::ItemCount], ApiType::Void, &[], ResultState::None),
    ("XPUSHs", CodeForm::Unbuilt(Row::XPushS), Written::Call, Stands::Anywhere, &[ApiType::Scalar], ApiType::Void, &[], ResultState::Held),
    ("PUSHs", CodeForm::Unbuilt(Row::PushS), Written::Call, Stands::Anywhere, &[ApiType::Scalar], ApiType::Void, &[], ResultState::Held),
    ("mXPUSHs", CodeForm::Unbuilt(Row::MXPushS), Written::Call, Stands::Anywhere, &[ApiType::Scalar], ApiType::Void, &[Mark::GivesUp(1)], ResultState::None),
    ("mXPUSHi", CodeForm::Unbuilt(Row::MXPushI), Written::Call, Stands::Anywhere, &[IV], ApiType::Void, &[], ResultState::None),
    ("mXPUSHu", CodeForm::Unbuilt(Row::MXPushU), Written::Call, Stands::Anywhere, &[UV], ApiType::Void, &[], ResultState::None),
    ("mXPUSHp", CodeForm::Unbuilt(Row::MXPushP), Written::Call, Stands::Anywhere, &[ApiType::Text, UV], ApiType::Void, &[], ResultState::None),
    ("EXTEND", CodeForm::Unbuilt(Row::Extend), Written::Call, Stands::Anywhere, &[ApiType::StackPointer, ApiType::Integer], ApiType::Void, &[], ResultState::None),
    ("POPs", CodeForm::Unbuilt(Row::PopS), Written::Name, Stands::Anywhere, &[], ApiType::Scalar, &[], ResultState::Mortal),
    ("POPi", CodeForm::Unbuilt(Row::PopI), Written::Name, Stands::Anywhere, &[], IV, &[Mark::Croaks], ResultState::None),
    ("PUTBACK", CodeForm::Unbuilt(Row::PutBack), Written::Statement, Stands::Anywhere, &[], ApiType::Void, &[], ResultState::None),
    ("SPAGAIN", CodeForm::Unbuilt(Row::SpAgain), Written::Statement, Stands::Anywhere, &[], ApiType::Void, &[], ResultState::None),

    // Scopes and callbacks (perlcall, "Using call_sv" and "G_EVAL"; perlguts, "Scopes").
    ("ENTER", CodeForm::Unbuilt(Row::Enter), Written::Statement, Stands::Anywhere, &[], ApiType::Void, &[], ResultState::None),
    ("LEAVE", CodeForm::Unbuilt(Row::Leave), Written::Statement, Stands::Anywhere, &[], ApiType::Void, &[], ResultState::None),
    ("SAVETMPS", CodeForm::Unbuilt(Row::SaveTmps), Written::Statement, Stands::Anywhere, &[], ApiType::Void, &[], ResultState::None),
    ("FREETMPS", CodeForm::Unbuilt(Row::FreeTmps), Written::Statement, Stands::Anywhere, &[], ApiType::Void, &[Mark::Releases], ResultState::None),
    ("PUSHMARK", CodeForm::Unbuilt(Row::PushMark), Written::Call, Stands::Anywhere, &[ApiType::StackPointer], ApiType::Void, &[], ResultState::None),
    ("call_sv", CodeForm::Unbuilt(Row::CallSv), Written::Call, Stands::Anywhere, &[ApiType::Scalar, INT], INT, &[Mark::Croaks, Mark::Sets, Mark::Releases, Mark::MovesPlaces], ResultState::None),
    ("call_pv", CodeForm::Unbuilt(Row::CallPv), Written::Call, Stands::Anywhere, &[ApiType::Text, INT], INT, &[Mark::Croaks, Mark::Sets, Mark::Releases, Mark::MovesPlaces], ResultState::None),

    // Croaks (perlapi, "Warning and Dieing"), and the names of functions (perlapi, "Subroutine
    // Definition").
    ("croak", CodeForm::Croak, Written::Call, Stands::Anywhere, &[ApiType::Format], ApiType::Void, &[Mark::Croaks], ResultState::None),
    ("Perl_croak", CodeForm::Croak, Written::Call, Stands::Anywhere, &[ApiType::Format], ApiType::Void, &[Mark::Croaks], ResultState::None),
    ("Perl_croak_nocontext", CodeForm::Croak, Written::Call, Stands::Anywhere, &[ApiType::Format], ApiType::Void, &[Mark::Croaks], ResultState::None),
    ("croak_xs_usage", CodeForm::Usage, Written::Call, Stands::Anywhere, &[ApiType::Cv, ApiType::Literal], ApiType::Void, &[Mark::Croaks], ResultState::None),
    ("newXS_deffile", CodeForm::Register, Written::Statement, Stands::InBootFunction, &[ApiType::Literal, ApiType::XsFunction], ApiType::Void, &[], ResultState::None),

];

/// The words that stand as they are where an operand is of such a type.
pub const OPERAND_WORDS: [(&str, ApiType); 5] = [
    ("SP", ApiType::StackPointer),
    ("cv", ApiType::Cv),
    ("items", ApiType::ItemCount),
    ("G_DISCARD", ApiType::Discard),
    ("GV_ADD", ApiType::AddGlob),
];

/// A word as it is written, with what stands in the code for it, where it may stand, and the types
/// of its operands and of its result.
#[derive(Clone, Copy, Debug)]
pub struct WordSignature {
    pub form: CodeForm,
    pub stands: Stands,
    pub operands: &'static [ApiType],
    pub result: ApiType,
}

/// A row that is called as a function, with the types of its operands and of its result.
#[derive(Clone, Copy, Debug)]
pub struct Signature {
    pub row: Row,
    pub operands: &'static [ApiType],
    pub result: ApiType,
}

// A number for each way to write a word.
fn way_number(written: Written) -> u8
    ensures { result ≡ table.way_number written }
{
    match written {
        Written::Call => 0,
        Written::Operand => 1,
        Written::Statement => 2,
        Written::Assignment => 3,
        Written::Name => 4,
        Written::Address => 5,
    }
}

// Whether an entry has this word, written in this way.
fn is_entry(entry: &Entry, written: Written, name: &[u8]) -> bool
    ensures { result ≡ table.is_entry written name.now (table.entry_view entry.now) }
{
    entry.0.as_bytes() == name && way_number(entry.2) == way_number(written)
}

// The entry of a word that is written in a way.
fn found(entries: &[Entry], written: Written, name: &[u8]) -> Option<WordSignature>
    ensures { table.found written name.now (map table.entry_view entries.now)
        ≡ option_map table.word_view result }
{
    for entry in entries {
        if is_entry(entry, written, name) {
            return Some(WordSignature {
                form: entry.1,
                stands: entry.3,
                operands: entry.4,
                result: entry.5,
            });
        }
    }
    None
}

// Whether an entry has this word.
fn has_word(entries: &[Entry], name: &[u8]) -> bool
    ensures { result ≡ table.has_word (map table.entry_view entries.now) name.now }
{
    for entry in entries {
        let word = entry.0.as_bytes();
        if word == name {
            return true;
        }
    }
    false
}

/// Whether a word is one of Perl's API.
#[tactic(auto, unfolding(crate::specs::Table::is_api_word, crate::specs::Table::api_words))]
pub fn is_api_word(name: &[u8]) -> bool
    ensures { result ≡ table.is_api_word name.now }
{
    has_word(&ROWS, name)
}

/// What a word is where it is written in this way.
#[tactic(auto, unfolding(crate::specs::Table::word_written, crate::specs::Table::api_words))]
pub fn word_written(written: Written, name: &[u8]) -> Option<WordSignature>
    ensures { table.word_written written name.now ≡ option_map table.word_view result }
{
    found(&ROWS, written, name)
}

// A row of a word, where the machine runs it.
fn signature_of(word: WordSignature) -> Option<Signature>
    ensures { table.row_of (table.word_view word) ≡ option_map table.signature_view result }
{
    match word.form {
        CodeForm::Row(row) => Some(Signature {
            row,
            operands: word.operands,
            result: word.result,
        }),
        _ => None,
    }
}

/// The row that is called as a function of this name, where the machine runs it.
#[tactic(auto, unfolding(crate::specs::Table::row_named, crate::specs::Table::word_written))]
pub fn row_named(name: &[u8]) -> Option<Signature>
    ensures { table.row_named name.now ≡ option_map table.signature_view result }
{
    match word_written(Written::Call, name) {
        Some(word) => signature_of(word),
        None => None,
    }
}

// A number for each type whose operand is a word, and 5 for another type.
fn word_number(t: ApiType) -> u8
    ensures { result ≡ table.word_number t }
{
    match t {
        ApiType::StackPointer => 0,
        ApiType::Cv => 1,
        ApiType::ItemCount => 2,
        ApiType::Discard => 3,
        ApiType::AddGlob => 4,
        _ => 5,
    }
}

// Whether an entry says that a word is an operand of a type.
fn says(entry: &(&str, ApiType), wanted: ApiType, name: &[u8]) -> bool
    ensures { result ≡ table.says wanted name.now (table.word_entry entry.now) }
{
    entry.0.as_bytes() == name && word_number(entry.1) == word_number(wanted)
}

// Whether one of these entries says so.
fn one_says(entries: &[(&str, ApiType)], wanted: ApiType, name: &[u8]) -> bool
    ensures { result ≡ table.one_says wanted name.now (map table.word_entry entries.now) }
{
    for entry in entries {
        if says(entry, wanted, name) {
            return true;
        }
    }
    false
}

/// Whether a word is just what an operand of a type has to be.
#[tactic(auto, unfolding(crate::specs::Table::is_operand_word))]
pub fn is_operand_word(wanted: ApiType, name: &[u8]) -> bool
    ensures { result ≡ table.is_operand_word wanted name.now }
{
    one_says(&OPERAND_WORDS, wanted, name)
}
