//! File keywords, which stand at the head of a paragraph.
ghost use Rattle.std.specs.Option.{option_copied};
ghost use Rattle.std.specs.Prelude.{◌≡◌, IfOk};
ghost use Rattle.xs_base.specs.ByteRuns.{after_run, front_of};
ghost use Rattle.xs_base.specs.declared.byte_runs.ByteClass.TheVariants.{Word};
ghost use Rattle.xs_sections.specs.Keywords as spec;

use crate::class::LineClass;
use crate::words::{
    BOOT, FALLBACK, FALLBACK_VALUES, LEFT_OUT, REQUIRE, SWITCH_VALUES, SWITCHES, TYPEMAP,
};
use std::alloc::Global;
use xs_base::{
    ByteClass, Bytes, Memory, after_blanks, cut_run, is_among, is_blank_line, is_identifier,
    starts_with, strip_prefix,
};

/// What a line is that may begin a paragraph.
pub fn head_class(alloc: Global, line: &[u8]) -> Result<LineClass, Memory>
    ensures { IfOk result (λ class. class ≡ spec.head_class line.now) }
{
    let (word, more) = cut_run(ByteClass::Capital, line);
    match after_blanks(more) {
        [] => Ok(text_class(line)),
        [first, value @ ..] => {
            if *first == b':' {
                word_class(alloc, word, value, line)
            } else {
                Ok(text_class(line))
            }
        }
    }
}

/// What a line is that begins with a word, maybe blanks, `:` and a value.
#[tactic(auto, unfolding(crate::specs::Keywords::word_class))]
fn word_class(alloc: Global, word: &[u8], value: &[u8], line: &[u8]) -> Result<LineClass, Memory>
    ensures { IfOk result (λ class. class ≡ spec.word_class word.now value.now line.now) }
{
    if is_among(&SWITCHES, word) {
        Ok(value_class(is_switch(only_word(value))))
    } else if word == REQUIRE.as_bytes() {
        Ok(value_class(is_some_word(only_word(value))))
    } else if word == FALLBACK.as_bytes() {
        Ok(value_class(is_fallback(only_word(value))))
    } else if word == TYPEMAP.as_bytes() {
        map_class(alloc, only_word(value))
    } else {
        left_out_class(alloc, word, value, line)
    }
}

#[tactic(auto, unfolding(crate::specs::Keywords::left_out_class))]
fn left_out_class(
    alloc: Global,
    word: &[u8],
    value: &[u8],
    line: &[u8],
) -> Result<LineClass, Memory>
    ensures { IfOk result (λ class. class ≡ spec.left_out_class word.now value.now line.now) }
{
    if is_among(&LEFT_OUT, word) && !starts_with(b":", value) {
        let word = Bytes::from_slice(alloc, word)?;
        Ok(LineClass::LeftOut(word))
    } else {
        Ok(text_class(line))
    }
}

fn text_class(line: &[u8]) -> LineClass
    ensures { result ≡ spec.text_class line.now }
{
    if starts_with(BOOT.as_bytes(), line) {
        LineClass::FirstOfBoot
    } else {
        LineClass::First
    }
}

fn value_class(is_good: bool) -> LineClass
    ensures { result ≡ spec.value_class is_good }
{
    if is_good {
        LineClass::Keyword
    } else {
        LineClass::BadValue
    }
}

/// What a TYPEMAP line is, by its value.
fn map_class(alloc: Global, value: &[u8]) -> Result<LineClass, Memory>
    ensures { IfOk result (λ class. class ≡ spec.map_class (spec.block_end value.now)) }
{
    match block_end(value) {
        None => Ok(LineClass::BadValue),
        Some(word) => {
            let end = Bytes::from_slice(alloc, word)?;
            Ok(LineClass::MapBegin(end))
        }
    }
}

/// The one word of a value; no word where it has none or several.
fn only_word(value: &[u8]) -> &[u8]
    ensures { result.now ≡ spec.only_word value.now }
{
    let (word, more) = cut_run(ByteClass::NoBlank, after_blanks(value));
    if is_blank_line(more) {
        word
    } else {
        b"".as_slice()
    }
}

/// The end word in the value of TYPEMAP: after `<<`, alone or in quotes, and with `;` after it or
/// not.
fn block_end(value: &[u8]) -> Option<&[u8]>
    ensures { option_copied result ≡ spec.block_end value.now }
{
    let word = strip_prefix(b"<<", value)?;
    end_word(word)
}

fn end_word(text: &[u8]) -> Option<&[u8]>
    ensures { option_copied result ≡ spec.end_word text.now }
{
    match text {
        [] => None,
        [first, rest @ ..] => {
            if *first == b'"' || *first == b'\'' {
                quoted_word(*first, rest)
            } else {
                let (word, closing) = cut_run(ByteClass::Word, text);
                end_word_of(word, closing)
            }
        }
    }
}

fn quoted_word(quote: u8, text: &[u8]) -> Option<&[u8]>
    ensures { option_copied result
        ≡ spec.quoted_word quote (front_of Word text.now) (after_run Word text.now) }
{
    let (word, more) = cut_run(ByteClass::Word, text);
    match more {
        [] => None,
        [b, closing @ ..] => {
            if *b == quote {
                end_word_of(word, closing)
            } else {
                None
            }
        }
    }
}

fn end_word_of<'a>(word: &'a [u8], closing: &[u8]) -> Option<&'a [u8]>
    ensures { option_copied result ≡ spec.end_word_of word.now closing.now }
{
    if is_identifier(word) && is_closing(closing) {
        Some(word)
    } else {
        None
    }
}

fn is_closing(text: &[u8]) -> bool
    ensures { result ≡ spec.is_closing text.now }
{
    match text {
        [] => true,
        [b] => *b == b';',
        [_, _, ..] => false,
    }
}

fn is_some_word(word: &[u8]) -> bool
    ensures { result ≡ spec.is_some_word word.now }
{
    match word {
        [] => false,
        [_, ..] => true,
    }
}

fn is_switch(word: &[u8]) -> bool
    ensures { result ≡ spec.is_switch word.now }
{
    is_among(&SWITCH_VALUES, word)
}

fn is_fallback(word: &[u8]) -> bool
    ensures { result ≡ spec.is_fallback word.now }
{
    is_among(&FALLBACK_VALUES, word)
}
