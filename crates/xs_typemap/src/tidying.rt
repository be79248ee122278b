//! Types are tidied, so that each has one spelling.
ghost use Rattle.std.specs.Prelude.{◌≡◌, ◌++◌, ◌∷◌, [], IfOk, OnOk, fold};
ghost use Rattle.xs_typemap.specs.TidiedTypes as spec;

use std::alloc::Global;
use xs_base::{Bytes, Memory, begins_word, is_blank, is_word_byte};

/// What stands last in a type so far.
#[derive(Clone, Copy, Debug, PartialEq, Eq)]
pub enum Last {
    Nothing,
    /// A byte of a word.
    Word,
    /// Blanks after a word.
    Gap,
    /// A star, maybe with blanks after it.
    Stars,
}

/// A type that is tidied, as far as it was read.
#[derive(Debug, Drop)]
pub struct Tidying {
    text: Bytes,
    last: Last,
}

// What a blank leaves last.
fn after_blank(last: Last) -> Last
    ensures { result ≡ spec.after_blank last }
{
    match last {
        Last::Word => Last::Gap,
        Last::Nothing => Last::Nothing,
        Last::Gap => Last::Gap,
        Last::Stars => Last::Stars,
    }
}

// What is put before a star.
fn before_star(last: Last) -> &'static [u8]
    ensures { result.now ≡ spec.before_star last }
{
    match last {
        Last::Nothing | Last::Stars => b"",
        Last::Word | Last::Gap => b" ",
    }
}

// What is put before a byte of a word.
fn before_letter(last: Last) -> &'static [u8]
    ensures { result.now ≡ spec.before_letter last }
{
    match last {
        Last::Nothing | Last::Word => b"",
        Last::Gap | Last::Stars => b" ",
    }
}

impl Tidying {
    // Adds a byte, with what is put before it.
    fn put(&mut self, before: &[u8], byte: u8, last: Last) -> Result<(), Memory>
        ensures text { OnOk result (self.new.text ≡ self.old.text ++ before.now ++ byte ∷ []) }
        ensures last { OnOk result (self.new.last ≡ last) }
    {
        self.text.append(before)?;
        self.text.append(&[byte])?;
        self.last = last;
        Ok(())
    }

    // Goes on by a byte of the type.
    fn take(&mut self, byte: u8) -> Result<(), Memory>
        ensures { OnOk result (self.new ≡ spec.tidy_step self.old byte) }
    {
        if is_blank(byte) {
            self.last = after_blank(self.last);
            Ok(())
        } else if byte == b'*' {
            self.put(before_star(self.last), byte, Last::Stars)
        } else {
            self.put(before_letter(self.last), byte, Last::Word)
        }
    }
}

/// A type, tidied: blanks become one space, a run of stars stands after one space, and no blank
/// stands at the ends. Stars with blanks alone between them are one run.
pub fn tidy(alloc: Global, text: &Bytes) -> Result<Bytes, Memory>
    ensures { IfOk result (λ t. t ≡ spec.tidied text.now) }
{
    tidied(alloc, text.as_slice())
}

/// A type, tidied.
pub fn tidied(alloc: Global, text: &[u8]) -> Result<Bytes, Memory>
    ensures { IfOk result (λ t. t ≡ spec.tidied text.now) }
{
    let mut tidying = Tidying {
        text: Bytes::new(alloc),
        last: Last::Nothing,
    };
    for byte in text {
        tidying.take(*byte)?;
    }
    Ok(tidying.text)
}

/// Which byte of a tidied type has to come.
#[derive(Clone, Copy, Debug, PartialEq, Eq)]
pub enum TypeByte {
    /// The first of the type.
    First,
    /// A further one of a word, or a space; or the type ends.
    Further,
    /// The first of the next word, or a star.
    Next,
    /// A star; or the type ends.
    Star,
}

/// Whether a tidied text is a type: one or more identifiers, and maybe stars after them.
pub fn is_type(text: &[u8]) -> bool
    ensures { result ≡ spec.is_type text.now }
{
    let mut due = TypeByte::First;
    for b in text {
        match due {
            TypeByte::First if begins_word(*b) => due = TypeByte::Further,
            TypeByte::Further if is_word_byte(*b) => {}
            TypeByte::Further if *b == b' ' => due = TypeByte::Next,
            TypeByte::Next if begins_word(*b) => due = TypeByte::Further,
            TypeByte::Next if *b == b'*' => due = TypeByte::Star,
            TypeByte::Star if *b == b'*' => {}
            _ => return false,
        }
    }
    matches!(due, TypeByte::Further | TypeByte::Star)
}
