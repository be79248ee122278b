//! The bytes of words, digits and blanks, and what stands in front of a text.
ghost use Rattle.std.specs.Prelude.{◌≡◌, ◌^◌, ◌≤◌, IfNone, IfSome, MatchOption, None, Some};
ghost use Rattle.xs_base.specs.Scanning as spec;

/// A space or a tab.
pub fn is_blank(b: u8) -> bool
    ensures { result ≡ spec.is_blank b }
{
    b == b' ' || b == b'\t'
}

/// A decimal digit.
pub fn is_ascii_digit(b: u8) -> bool
    ensures { result ≡ spec.is_ascii_digit b }
{
    b'0' <= b && b <= b'9'
}

/// A letter of either case.
pub fn is_letter(b: u8) -> bool
    ensures { result ≡ spec.is_letter b }
{
    b'A' <= b && b <= b'Z' || b'a' <= b && b <= b'z'
}

/// The first byte of an identifier: a letter or `_`.
pub fn begins_word(b: u8) -> bool
    ensures { result ≡ spec.begins_word b }
{
    is_letter(b) || b == b'_'
}

/// A byte of an identifier: a letter, a digit or `_`.
pub fn is_word_byte(b: u8) -> bool
    ensures { result ≡ spec.is_word_byte b }
{
    begins_word(b) || is_ascii_digit(b)
}

/// What stands after a byte, where the text begins with it.
pub fn strip_byte(byte: u8, text: &[u8]) -> Option<&[u8]>
    ensures { MatchOption result (spec.strip_byte byte text.now
        ≡ None) (λ rest. spec.strip_byte byte text.now ≡ Some rest.now) }
{
    match text {
        [first, rest @ ..] => { if *first == byte { Some(rest) } else { None } }
        [] => None,
    }
}

/// What stands after a word, where the text begins with it.
pub fn strip_prefix<'a>(word: &[u8], text: &'a [u8]) -> Option<&'a [u8]>
    ensures { MatchOption result (spec.strip_prefix word.now text.now
        ≡ None) (λ rest. spec.strip_prefix word.now text.now ≡ Some rest.now) }
{
    let mut rest = text;
    for byte in word {
        rest = strip_byte(*byte, rest)?;
    }
    Some(rest)
}

/// Whether a text begins with a word.
pub fn starts_with(word: &[u8], text: &[u8]) -> bool
    ensures { result ≡ spec.starts_with word.now text.now }
{
    strip_prefix(word, text).is_some()
}

/// The value of decimal digits, if it has 64 bits.
pub fn digits_value(digits: &[u8]) -> Option<u64>
    ensures some { IfSome result (λ n. n ≡ spec.value_of_digits digits.now) }
    ensures none { IfNone result (2 ^ 64 ≤ spec.value_of_digits digits.now) }
{
    let mut n: u64 = 0;
    for b in digits {
        let Some(tens) = n.checked_mul(10) else {
            return None;
        };
        let Some(more) = tens.checked_add(b.saturating_sub(48) as u64) else {
            return None;
        };
        n = more;
    }
    Some(n)
}
