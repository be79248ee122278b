//! Types.
ghost use Rattle.std.specs.Prelude.{◌≡◌, map};
ghost use Rattle.xs_cinput.specs.TokenInput.{Reads};
ghost use Rattle.xs_cinput.specs.TypeReader as spec;

use crate::CType;
use crate::cursor::Cursor;
use crate::token_tests::is_word_kind;
use std::alloc::Global;
use xs_base::{Bytes, Refuse};

/// The words of a type's name, and a word that may come after them (C11 6.7.2p2).
pub const JOINS: [(&str, &str); 7] = [
    ("unsigned", "char"),
    ("unsigned", "short"),
    ("unsigned", "int"),
    ("unsigned", "long"),
    ("unsigned long", "long"),
    ("signed", "char"),
    ("long", "long"),
];

// Whether a word may come after these words.
fn is_joined_by(table: &[(&str, &str)], name: &[u8], word: &[u8]) -> bool
    ensures { result ≡ spec.is_joined_by
        (map (λ row. (row.0.now, row.1.now)) table.now) name.now word.now }
{
    for row in table {
        if row.0.as_bytes() == name && row.1.as_bytes() == word {
            return true;
        }
    }
    false
}

// Whether the next token goes on with this name of a type.
#[tactic(auto, unfolding(crate::specs::TypeReader::sees_join, crate::specs::TypeReader::join_table))]
fn sees_join(cursor: &Cursor<'_, '_>, name: &[u8]) -> bool
    ensures { result ≡ spec.sees_join name.now cursor.now }
{
    match cursor.first() {
        None => false,
        Some(first) => is_word_kind(&first.kind)
            && is_joined_by(&JOINS, name, first.text.as_slice()),
    }
}

// The name with the next word, where that goes on with it.
#[tactic(auto, unfolding(crate::specs::TypeReader::joined_name))]
fn joined_name(cursor: &mut Cursor<'_, '_>, name: Bytes) -> Result<Bytes, Refuse>
    ensures { Reads (λ b. b) (spec.joined_name name cursor.old) result cursor.new }
{
    if !sees_join(cursor, name.as_slice()) {
        return Ok(name);
    }
    let mut longer = name;
    longer.append(b" ")?;
    longer.append(cursor.take())?;
    Ok(longer)
}

/// The name of a type, of one to three words.
#[tactic(auto, unfolding(crate::specs::TypeReader::type_name))]
pub fn type_name(alloc: Global, cursor: &mut Cursor<'_, '_>) -> Result<Bytes, Refuse>
    ensures { Reads (λ b. b) (spec.type_name cursor.old) result cursor.new }
{
    let first = cursor.type_word(alloc)?;
    let second = joined_name(cursor, first)?;
    let name = joined_name(cursor, second)?;
    if name.as_slice() == b"signed".as_slice() {
        return Err(cursor.refuse(alloc));
    }
    Ok(name)
}

/// Consumes the `*` that come next, and gives their number.
#[tactic(auto, unfolding(crate::specs::TypeReader::stars, crate::specs::TypeReader::stars_from))]
pub fn stars(alloc: Global, cursor: &mut Cursor<'_, '_>) -> Result<u32, Refuse>
    ensures { Reads (λ n. n) (spec.stars cursor.old) result cursor.new }
{
    let mut n = 0;
    for _turn in 0..cursor.turns() {
        if !cursor.eat(b"*") {
            return Ok(n);
        }
        n += 1;
    }
    Err(cursor.refuse(alloc))
}

/// A type: its name, and `*` after it.
#[tactic(auto, unfolding(crate::specs::TypeReader::a_type))]
pub fn a_type(alloc: Global, cursor: &mut Cursor<'_, '_>) -> Result<CType, Refuse>
    ensures { Reads (λ t. t) (spec.a_type cursor.old) result cursor.new }
{
    let line = cursor.line();
    let name = type_name(alloc, cursor)?;
    let stars = stars(alloc, cursor)?;
    Ok(CType { line, name, stars })
}
