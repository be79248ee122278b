//! Runs of bytes of one class in front of a text.
ghost use Rattle.std.specs.List.{list_all};
ghost use Rattle.std.specs.Prelude.{◌≡◌, ◌≤◌, length};
ghost use Rattle.xs_base.specs.Readers.{head_is};
ghost use Rattle.xs_base.specs.ByteRuns as spec;
ghost use Rattle.xs_base.specs.Scanning as scanning;

use crate::scanning::{is_ascii_digit, is_blank, is_letter, is_word_byte, starts_with};

/// A class of bytes.
#[derive(Clone, Copy, Debug, PartialEq, Eq)]
pub enum ByteClass {
    /// A space or a tab.
    Blank,
    /// What is neither a space nor a tab.
    NoBlank,
    /// A decimal digit.
    Digit,
    /// An octal digit.
    Octal,
    /// A hexadecimal digit, with letters of either case.
    Hexadecimal,
    /// A letter of either case.
    Letter,
    /// A capital letter or `_`, of which the keywords of an XS file are made (perlxs).
    Capital,
    /// A letter, a digit or `_`.
    Word,
    /// What stands in identifiers joined by `::`.
    Name,
    /// C's white space, of which blanks are a part (isspace of the C standard).
    Space,
}

fn is_capital(b: u8) -> bool
    ensures { result ≡ spec.is_capital b }
{
    b'A' <= b && b <= b'Z' || b == b'_'
}

fn is_octal_digit(b: u8) -> bool
    ensures { result ≡ spec.is_octal_digit b }
{
    b'0' <= b && b <= b'7'
}

fn is_hexadecimal_digit(b: u8) -> bool
    ensures { result ≡ spec.is_hexadecimal_digit b }
{
    is_ascii_digit(b) || b'A' <= b && b <= b'F' || b'a' <= b && b <= b'f'
}

fn is_space(b: u8) -> bool
    ensures { result ≡ spec.is_space b }
{
    b'\t' <= b && b <= b'\r' || b == b' '
}

/// Whether a byte is of a class.
pub fn belongs(class: ByteClass, b: u8) -> bool
    ensures { result ≡ spec.belongs class b }
{
    match class {
        ByteClass::Blank => is_blank(b),
        ByteClass::NoBlank => !is_blank(b),
        ByteClass::Digit => is_ascii_digit(b),
        ByteClass::Octal => is_octal_digit(b),
        ByteClass::Hexadecimal => is_hexadecimal_digit(b),
        ByteClass::Letter => is_letter(b),
        ByteClass::Capital => is_capital(b),
        ByteClass::Word => is_word_byte(b),
        ByteClass::Name => is_word_byte(b) || b == b':',
        ByteClass::Space => is_space(b),
    }
}

/// Whether a text begins with a byte of a class.
pub fn starts_with_class(class: ByteClass, text: &[u8]) -> bool
    ensures { result ≡ head_is (spec.belongs class) text.now }
{
    match text {
        [] => false,
        [first, ..] => belongs(class, *first),
    }
}

/// Whether all bytes of a text are of a class.
pub fn are_all(class: ByteClass, text: &[u8]) -> bool
    ensures { result ≡ list_all (spec.belongs class) text.now }
{
    text.iter().all(|b| belongs(class, *b))
}

/// How many bytes the run has.
fn run_len(class: ByteClass, text: &[u8]) -> usize
    ensures run { result ≡ length (spec.front_of class text.now) }
    ensures within { result ≤ length text.now }
{
    let mut len = 0;
    for b in text {
        if !belongs(class, *b) {
            return len;
        }
        len += 1;
    }
    len
}

/// The longest run of a class in front of a text, and what stands after it.
#[tactic(auto, using(crate::proofs::FrontRuns::front_is, crate::proofs::FrontRuns::after_is))]
pub fn cut_run(class: ByteClass, text: &[u8]) -> (&[u8], &[u8])
    ensures front { result.0.now ≡ spec.front_of class text.now }
    ensures after { result.1.now ≡ spec.after_run class text.now }
{
    text.split_at(run_len(class, text))
}

/// The text from its first byte on that is no blank.
pub fn after_blanks(text: &[u8]) -> &[u8]
    ensures { result.now ≡ spec.after_blanks text.now }
{
    cut_run(ByteClass::Blank, text).1
}

/// Whether the first byte of a text that is no blank is `#`.
pub fn is_remark(text: &[u8]) -> bool
    ensures { result ≡ spec.is_remark text.now }
{
    starts_with(b"#", after_blanks(text))
}

/// Whether a text has blanks alone.
pub fn is_blank_line(text: &[u8]) -> bool
    ensures { result ≡ scanning.is_blank_line text.now }
{
    are_all(ByteClass::Blank, text)
}

// Whether a text is a `0` with other bytes after it.
fn has_leading_zero(text: &[u8]) -> bool
    ensures { result ≡ scanning.has_leading_zero text.now }
{
    match text {
        [first, _, ..] => *first == b'0',
        _ => false,
    }
}

/// Whether a text is a decimal number: digits alone, one at least, without a zero in front of
/// others (the decimal constants of the C standard, and `0`).
pub fn is_decimal(text: &[u8]) -> bool
    ensures { result ≡ scanning.is_decimal text.now }
{
    !text.is_empty() && are_all(ByteClass::Digit, text) && !has_leading_zero(text)
}
