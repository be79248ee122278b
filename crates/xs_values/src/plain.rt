//! What a scalar holds that is no reference, and its number and text.
ghost use Rattle.std.specs.Fmt.{signed_decimal};
ghost use Rattle.std.specs.Prelude.{◌≡◌, ◌-◌, ◌≤◌, ◌^◌, IfOk, decimal, min, neg_ℤ, negsuc, pos};
ghost use Rattle.xs_values.specs.Plains.{between, into_iv, iv_of, number_of_text, plain_of_uv};
ghost use Rattle.xs_values.specs.Plains.{text_of, truth_of, uv_of, value_in_front};

use crate::Kind;
use crate::number::bit_pattern;
use std::alloc::Global;
use std::marker::Model;
use xs_base::{ByteClass, Bytes, Memory, cut_run, digits_value};

/// A UV above the greatest IV, 2^63 - 1. Contracts see the number.
#[derive(Clone, Copy, Debug)]
pub struct LargeUv {
    value: u64,
}

impl Model for LargeUv {
    ghost use Rattle.std.specs.Prelude.{ℕ, ◌≤◌, ◌^◌};

    ghost Value = { ℕ };

    ghost view = { λ u. u.value };

    ghost invariant = { λ u. 2 ^ 63 ≤ u.value };

    ghost inverse = { λ n. record { value = n } };
}

impl LargeUv {
    /// The number.
    pub fn value(&self) -> u64
        ensures value { result ≡ self.now }
        ensures large { 2 ^ 63 ≤ result }
    {
        self.value
    }
}

/// What a scalar holds where it holds no reference (perlguts, "Datatypes"). Each whole number from
/// -2^63 to 2^64 - 1 is held in one way alone.
#[derive(Debug, Drop)]
pub enum Plain {
    /// `undef`.
    Undef,
    /// A whole number that an IV holds.
    Int(i64),
    /// A whole number that only a UV holds, above 2^63 - 1.
    Uns(LargeUv),
    /// A text.
    Text(Bytes),
}

impl Plain {
    /// The value that holds a UV.
    pub fn from_uv(uv: u64) -> Plain
        ensures { result ≡ plain_of_uv uv }
    {
        if uv < 1 << 63 {
            Plain::Int(uv as i64)
        } else {
            Plain::Uns(LargeUv { value: uv })
        }
    }
}

/// The number of a value as an IV, which is what `SvIV` gives: a greater number gives 2^63 - 1,
/// `undef` gives 0, and a text gives the whole number that it begins with, after blanks and one
/// sign.
pub fn to_iv(p: &Plain) -> i64
    ensures { result ≡ iv_of p.now }
{
    match p {
        Plain::Undef => 0,
        Plain::Int(i) => *i,
        Plain::Uns(u) => saturate(i128::from(u.value())),
        Plain::Text(t) => saturate(text_number(t.as_slice())),
    }
}

/// The number of a value as a UV, which is what `SvUV` gives: a negative number gives its residue
/// modulo 2^64.
pub fn to_uv(p: &Plain) -> u64
    ensures { result ≡ uv_of p.now }
{
    match p {
        Plain::Undef => 0,
        Plain::Int(i) => bit_pattern(Kind::U64, i128::from(*i)),
        Plain::Uns(u) => u.value(),
        Plain::Text(t) => bit_pattern(Kind::U64, text_number(t.as_slice())),
    }
}

/// Whether a value is true, which is what `SvTRUE` gives: `undef`, 0, the empty text and the text
/// `0` are false, and every other value is true.
pub fn truth(p: &Plain) -> bool
    ensures { result ≡ truth_of p.now }
{
    match p {
        Plain::Undef => false,
        Plain::Int(i) => *i != 0,
        Plain::Uns(u) => u.value() != 0,
        Plain::Text(t) => !matches!(t.as_slice(), [] | [b'0']),
    }
}

/// The text of a value: decimal digits, after a `-` where the number is negative; `undef` gives the
/// empty text.
pub fn to_text(alloc: Global, p: &Plain) -> Result<Bytes, Memory>
    ensures { IfOk result (λ text. text ≡ text_of p.now) }
{
    match p {
        Plain::Undef => Ok(Bytes::new(alloc)),
        Plain::Int(i) => signed_text(alloc, *i),
        Plain::Uns(u) => unsigned_text(alloc, u.value()),
        Plain::Text(t) => t.copy(alloc),
    }
}

fn signed_text(alloc: Global, i: i64) -> Result<Bytes, Memory>
    ensures { IfOk result (λ text. text ≡ signed_decimal i) }
{
    let text = format!(in alloc; "{i}")?;
    Bytes::from_slice(alloc, text.as_bytes())
}

fn unsigned_text(alloc: Global, u: u64) -> Result<Bytes, Memory>
    ensures { IfOk result (λ text. text ≡ decimal u) }
{
    let mut text = Bytes::new(alloc);
    text.append_number(alloc, u)?;
    Ok(text)
}

// A number brought into the range of IV.
fn saturate(z: i128) -> i64
    ensures { result ≡ into_iv z }
{
    if z < i128::from(i64::MIN) {
        i64::MIN
    } else if z > i128::from(i64::MAX) {
        i64::MAX
    } else {
        z as i64
    }
}

// The whole number of a text, in the range of IV and UV together.
fn text_number(bytes: &[u8]) -> i128
    ensures { result ≡ number_of_text bytes.now }
{
    match cut_run(ByteClass::Space, bytes).1 {
        [b'-', digits @ ..] => negative(value_in_front(digits)),
        [b'+', digits @ ..] => i128::from(value_in_front(digits)),
        digits => i128::from(value_in_front(digits)),
    }
}

// A number below 0, in the range of IV.
fn negative(n: u64) -> i128
    ensures { result ≡ between (negsuc (2 ^ 63 - 1)) (pos (2 ^ 64 - 1)) (neg_ℤ (pos n)) }
{
    let z = -i128::from(n);
    if z < i128::from(i64::MIN) {
        i128::from(i64::MIN)
    } else {
        z
    }
}

// The number that the longest run of digits in front writes, or the greatest UV where that is less.
fn value_in_front(text: &[u8]) -> u64
    ensures { result ≡ min (value_in_front text.now) (2 ^ 64 - 1) }
{
    digits_value(cut_run(ByteClass::Digit, text).0).unwrap_or(u64::MAX)
}
