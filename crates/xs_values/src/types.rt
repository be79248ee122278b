//! The number types of C text, and the kind of each.
ghost use Rattle.std.specs.Prelude.{◌≡◌, map};
ghost use Rattle.xs_values.specs.Types.{kind_among, kind_of_type, long_kind_of};

use crate::{DataModel, Kind};
use xs_base::Bytes;

/// The number types, words and kind: those of C (C11 6.7.2p2) that have no two `int` in their
/// names, and those that perl.h and XSUB.h name. `char` has a sign, as on x86-64.
pub const NUMBER_TYPES: [(&str, Kind); 26] = [
    ("char", Kind::I8),
    ("signed char", Kind::I8),
    ("I8", Kind::I8),
    ("unsigned char", Kind::U8),
    ("U8", Kind::U8),
    ("short", Kind::I16),
    ("I16", Kind::I16),
    ("unsigned short", Kind::U16),
    ("U16", Kind::U16),
    ("int", Kind::I32),
    ("I32", Kind::I32),
    ("unsigned", Kind::U32),
    ("unsigned int", Kind::U32),
    ("U32", Kind::U32),
    ("long", Kind::I64),
    ("long long", Kind::I64),
    ("IV", Kind::I64),
    ("SSize_t", Kind::I64),
    ("ssize_t", Kind::I64),
    ("SysRet", Kind::I64),
    ("unsigned long", Kind::U64),
    ("unsigned long long", Kind::U64),
    ("UV", Kind::U64),
    ("STRLEN", Kind::U64),
    ("size_t", Kind::U64),
    ("bool", Kind::Bool),
];

/// The kind of a number type, given by its tidied words; None for any other text.
#[tactic(auto, unfolding(crate::specs::Types::number_types))]
pub fn kind_of(word: &Bytes, model: DataModel) -> Option<Kind>
    ensures { result ≡ kind_of_type model word.now }
{
    match model {
        DataModel::Lp64 => kind_in(&NUMBER_TYPES, word.as_slice()),
    }
}

// The kind that stands beside words in a table, where they stand first.
fn kind_in(table: &[(&str, Kind)], words: &[u8]) -> Option<Kind>
    ensures { result ≡ kind_among (map (λ row. (row.0.now, row.1)) table.now) words.now }
{
    for row in table {
        if row.0.as_bytes() == words {
            return Some(row.1);
        }
    }
    None
}

/// The kind of `long`.
pub(crate) fn long_kind(model: DataModel) -> Kind
    ensures { result ≡ long_kind_of model }
{
    match model {
        DataModel::Lp64 => Kind::I64,
    }
}
