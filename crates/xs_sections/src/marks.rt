//! What a line is by its own text: POD, a comment, a directive, a MODULE line.
ghost use Rattle.std.specs.Prelude.{◌≡◌};
ghost use Rattle.xs_base.specs.ByteRuns.{after_run, front_of};
ghost use Rattle.xs_base.specs.declared.byte_runs.ByteClass.TheVariants.{Word};
ghost use Rattle.xs_sections.specs.LineForms as spec;

use crate::words::{DIRECTIVES, MODULE};
use xs_base::{ByteClass, after_blanks, cut_run, is_among, starts_with, starts_with_class};

/// A line that begins with `=` and a letter starts POD.
pub fn begins_pod(line: &[u8]) -> bool
    ensures { result ≡ spec.begins_pod line.now }
{
    match line {
        [] => false,
        [first, rest @ ..] => *first == b'=' && starts_with_class(ByteClass::Letter, rest),
    }
}

/// POD ends after a line that begins with `=cut`.
pub fn ends_pod(line: &[u8]) -> bool
    ensures { result ≡ spec.ends_pod line.now }
{
    starts_with(b"=cut", line)
}

/// A line that begins with a byte that is no blank.
pub fn is_flush_left(line: &[u8]) -> bool
    ensures { result ≡ spec.is_flush_left line.now }
{
    starts_with_class(ByteClass::NoBlank, line)
}

/// A line that the C preprocessor would read: `#` as its first byte and a word of the preprocessor
/// after it.
pub fn is_directive(line: &[u8]) -> bool
    ensures { result ≡ spec.is_directive line.now }
{
    match line {
        [] => false,
        [first, rest @ ..] => *first == b'#' && is_directive_text(after_blanks(rest)),
    }
}

fn is_directive_text(text: &[u8]) -> bool
    ensures { result ≡ spec.is_directive_text (front_of Word text.now) (after_run Word text.now) }
{
    let (word, more) = cut_run(ByteClass::Word, text);
    is_among(&DIRECTIVES, word)
        || word == b"line".as_slice()
            && starts_with_class(ByteClass::Blank, more)
            && starts_with_class(ByteClass::Digit, after_blanks(more))
        || word == b"include".as_slice()
            && (starts_with(b"\"", after_blanks(more)) || starts_with(b"<", after_blanks(more)))
}

/// A line whose first word is MODULE.
pub fn is_module_line(line: &[u8]) -> bool
    ensures { result ≡ spec.is_module_line line.now }
{
    cut_run(ByteClass::Word, after_blanks(line)).0 == MODULE.as_bytes()
}
