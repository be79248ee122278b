//! Integer literals.
ghost use Rattle.std.specs.Char.{digit_value};
ghost use Rattle.std.specs.Prelude.{◌≡◌, ◌+◌, ◌^◌, ◌≤◌, ◌<◌, IfNone, IfSome, MatchOption, None, Some, length, map, true};
ghost use Rattle.xs_base.specs.Readers.{head_is};
ghost use Rattle.xs_base.specs.Scanning.{is_ascii_digit};
ghost use Rattle.xs_ctok.specs.Numerals as spec;
ghost use Rattle.xs_ctok.specs.Numerals.{FitsNumber};

use crate::token::Literal;
use xs_base::fault_codes::{FLOATING_POINT_IN_C, LITERAL_TOO_WIDE};
use xs_base::{ByteClass, belongs, cut_run, starts_with, starts_with_class};
use xs_values::{Base, Length, Suffix};

/// No suffix.
pub const NO_SUFFIX: Suffix = Suffix {
    unsigned: false,
    length: Length::Int,
};

/// What each suffix says (C11 6.4.4.1), a longer one before those that it begins with.
#[rattlefmt::skip]
pub const SUFFIXES: [(&str, Suffix); 10] = [
    ("ull", Suffix { unsigned: true, length: Length::LongLong }),
    ("ULL", Suffix { unsigned: true, length: Length::LongLong }),
    ("ul", Suffix { unsigned: true, length: Length::Long }),
    ("UL", Suffix { unsigned: true, length: Length::Long }),
    ("ll", Suffix { unsigned: false, length: Length::LongLong }),
    ("LL", Suffix { unsigned: false, length: Length::LongLong }),
    ("u", Suffix { unsigned: true, length: Length::Int }),
    ("U", Suffix { unsigned: true, length: Length::Int }),
    ("l", Suffix { unsigned: false, length: Length::Long }),
    ("L", Suffix { unsigned: false, length: Length::Long }),
];

/// What a number in front of a text is.
#[derive(Clone, Copy, Debug, PartialEq, Eq)]
pub enum NumberFront {
    /// An integer of this many bytes.
    Integer(Literal, usize),
    /// None that is taken, by the code of the fault.
    Refused(u16),
}

// The value of a digit or a letter, and 36 for another byte.
fn digit_value(b: u8) -> u8
    ensures { result ≡ digit_value b }
{
    match b {
        b'0'..=b'9' => b - 48,
        b'A'..=b'Z' => b - 55,
        b'a'..=b'z' => b - 87,
        _ => 36,
    }
}

fn radix(base: Base) -> u8
    ensures { result ≡ spec.radix base }
{
    match base {
        Base::Decimal => 10,
        Base::Octal => 8,
        Base::Hexadecimal => 16,
    }
}

// The class of the digits of a base.
fn digits_in(base: Base) -> ByteClass
    ensures { result ≡ spec.digits_in base }
{
    match base {
        Base::Decimal => ByteClass::Digit,
        Base::Octal => ByteClass::Octal,
        Base::Hexadecimal => ByteClass::Hexadecimal,
    }
}

/// Whether a byte is a digit of a base.
pub fn is_digit_of(base: Base, b: u8) -> bool
    ensures { result ≡ spec.is_digit_of base b }
{
    belongs(digits_in(base), b)
}

/// The value of a digit of a base.
#[tactic(auto, using(crate::proofs::DigitValues::digit_within))]
pub fn value_in(base: Base, b: u8) -> Option<u8>
    ensures value { result ≡ spec.value_in base b }
    ensures within { IfSome result (λ v. v < spec.radix base) }
{
    if is_digit_of(base, b) {
        Some(digit_value(b))
    } else {
        None
    }
}

// The digits of a base in front, and what stands after them.
#[tactic(auto, using(xs_base::proofs::FrontRuns::run_sizes))]
fn cut_digits(base: Base, text: &[u8]) -> (&[u8], &[u8])
    ensures front { result.0.now ≡ spec.digits_of base text.now }
    ensures after { result.1.now ≡ spec.after_digits base text.now }
    ensures sizes { length result.0.now + length result.1.now ≡ length text.now }
{
    cut_run(digits_in(base), text)
}

// The value of digits, if it has 64 bits.
fn value_of(base: Base, digits: &[u8]) -> Option<u64>
    ensures some { IfSome result (λ n. n ≡ spec.value_of base digits.now) }
    ensures none { IfNone result (2 ^ 64 ≤ spec.value_of base digits.now) }
{
    let mut n: u64 = 0;
    for b in digits {
        let Some(shifted) = n.checked_mul(radix(base) as u64) else {
            return None;
        };
        let Some(more) = shifted.checked_add(digit_value(*b) as u64) else {
            return None;
        };
        n = more;
    }
    Some(n)
}

fn starts_with_digit_of(base: Base, text: &[u8]) -> bool
    ensures { result ≡ head_is (spec.is_digit_of base) text.now }
{
    starts_with_class(digits_in(base), text)
}

// The digits after the `0x` of a hexadecimal integer, where one of them follows it.
fn after_hexadecimal_prefix(text: &[u8]) -> Option<&[u8]>
    ensures { MatchOption result (spec.after_hexadecimal_prefix text.now
        ≡ None) (λ rest. spec.after_hexadecimal_prefix text.now ≡ Some rest.now) }
{
    match text {
        [zero, x, rest @ ..] => {
            if *zero == b'0'
                && (*x == b'x' || *x == b'X')
                && starts_with_digit_of(Base::Hexadecimal, rest)
            {
                Some(rest)
            } else {
                None
            }
        }
        _ => None,
    }
}

fn is_exponent_letter(base: Base, b: u8) -> bool
    ensures { result ≡ spec.is_exponent_letter base b }
{
    match base {
        Base::Hexadecimal => b == b'p' || b == b'P',
        Base::Decimal | Base::Octal => b == b'e' || b == b'E',
    }
}

fn after_sign(text: &[u8]) -> &[u8]
    ensures { result.now ≡ spec.after_sign text.now }
{
    match text {
        [b'+' | b'-', rest @ ..] => rest,
        _ => text,
    }
}

// Whether an exponent stands in front (C11 6.4.4.2).
fn has_exponent(base: Base, text: &[u8]) -> bool
    ensures { result ≡ spec.has_exponent base text.now }
{
    match text {
        [letter, rest @ ..] => {
            is_exponent_letter(base, *letter)
                && starts_with_class(ByteClass::Digit, after_sign(rest))
        }
        [] => false,
    }
}

// Digits of a floating constant may have an 8 or a 9 after a leading `0`.
fn floating_base(base: Base) -> Base
    ensures { result ≡ spec.floating_base base }
{
    match base {
        Base::Hexadecimal => Base::Hexadecimal,
        Base::Decimal | Base::Octal => Base::Decimal,
    }
}

// Whether the number has a point or an exponent (C11 6.4.4.2).
fn is_floating(base: Base, text: &[u8]) -> bool
    ensures { result ≡ spec.is_floating base text.now }
{
    let rest = cut_digits(floating_base(base), text).1;
    starts_with(b".", rest) || has_exponent(base, rest)
}

// The first suffix of some that the text begins with.
#[tactic(auto, using(crate::proofs::RunSizes::prefix_size))]
fn suffix_among(rows: &[(&'static str, Suffix)], text: &[u8]) -> (usize, Suffix)
    ensures len { let all = map (λ row. spec.suffixed row.0.now row.1) rows.now in result.0
        ≡ length (spec.suffix_among all text.now).written }
    ensures suffix { let all = map (λ row. spec.suffixed row.0.now row.1) rows.now in result.1
        ≡ (spec.suffix_among all text.now).says }
    ensures within { result.0 ≤ length text.now }
{
    for row in rows {
        if starts_with(row.0.as_bytes(), text) {
            return (row.0.len(), row.1);
        }
    }
    (0, NO_SUFFIX)
}

// The suffix in front, by its length, and what it says.
#[tactic(auto, unfolding(crate::specs::Numerals::suffix_of))]
fn suffix_of(text: &[u8]) -> (usize, Suffix)
    ensures len { result.0 ≡ length (spec.suffix_of text.now).written }
    ensures suffix { result.1 ≡ (spec.suffix_of text.now).says }
    ensures within { result.0 ≤ length text.now }
{
    suffix_among(&SUFFIXES, text)
}

// The integer of a base whose digits stand after so many bytes.
#[tactic(auto, using(xs_base::proofs::FrontRuns::front_some))]
fn integer_front(base: Base, text: &[u8], before: usize) -> NumberFront
    requires room { before ≤ 2 }
    requires digit { head_is (spec.is_digit_of base) text.now ≡ true }
    ensures value { result ≡ spec.integer_front base text.now before }
    ensures within { FitsNumber result (before + length text.now) }
{
    let (digits, rest) = cut_digits(base, text);
    let Some(value) = value_of(base, digits) else {
        return NumberFront::Refused(LITERAL_TOO_WIDE);
    };
    let (len, suffix) = suffix_of(rest);
    let literal = Literal {
        value,
        base,
        suffix,
    };
    NumberFront::Integer(literal, before + digits.len() + len)
}

// The same, or the fault of a number with a point or an exponent.
fn based_front(base: Base, text: &[u8], before: usize) -> NumberFront
    requires room { before ≤ 2 }
    requires digit { head_is (spec.is_digit_of base) text.now ≡ true }
    ensures value { result ≡ spec.based_front base text.now before }
    ensures within { FitsNumber result (before + length text.now) }
{
    if is_floating(base, text) {
        NumberFront::Refused(FLOATING_POINT_IN_C)
    } else {
        integer_front(base, text, before)
    }
}

// Whether the number in front is octal: a `0` that another digit follows.
fn is_octal(text: &[u8]) -> bool
    ensures { result ≡ spec.is_octal text.now }
{
    match text {
        [zero, rest @ ..] => *zero == b'0' && starts_with_class(ByteClass::Digit, rest),
        [] => false,
    }
}

/// The number in front of a text that begins with a digit: the longest integer (C11 6.4.4.1), or
/// the fault of one of more than 64 bits or of one with a point or an exponent.
#[tactic(auto, unfolding(crate::specs::Numerals::number_front))]
pub fn number_front(text: &[u8]) -> NumberFront
    requires { head_is is_ascii_digit text.now ≡ true }
    ensures value { result ≡ spec.number_front text.now }
    ensures within { FitsNumber result (length text.now) }
{
    match after_hexadecimal_prefix(text) {
        Some(digits) => based_front(Base::Hexadecimal, digits, 2),
        None => {
            if is_octal(text) {
                based_front(Base::Octal, text, 0)
            } else {
                based_front(Base::Decimal, text, 0)
            }
        }
    }
}
