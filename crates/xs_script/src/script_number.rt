//! The values of numbers as they stand.
ghost use Rattle.std.specs.Prelude.{◌≡◌, ◌^◌, ◌≤◌, neg_ℤ, pos};
ghost use Rattle.xs_script.specs.ScriptNumbers as spec;

use crate::command::Number;
use xs_base::digits_value;

fn negated(n: u64) -> i64
    requires { n ≤ 2 ^ 63 }
    ensures { result ≡ neg_ℤ (pos n) }
{
    if n == 0 { 0 } else { -((n - 1) as i64) - 1 }
}

fn positive(n: u64) -> Number
    ensures { spec.positive n ≡ spec.some_number result }
{
    if n <= i64::MAX as u64 {
        Number::Int(n as i64)
    } else {
        Number::Uns(n)
    }
}

/// The value of an optional `-` and digits, if it lies between -2^63 and 2^64 - 1.
pub fn number_of(text: &[u8]) -> Option<Number>
    ensures { result ≡ spec.number_of text.now }
{
    match text {
        [b'-', digits @ ..] => match digits_value(digits) {
            Some(n) if n <= 1 << 63 => Some(Number::Int(negated(n))),
            _ => None,
        },
        _ => Some(positive(digits_value(text)?)),
    }
}

/// The value of an optional `-` and digits, if it lies between 0 and 2^32 - 1.
pub fn argument_of(text: &[u8]) -> Option<u32>
    ensures { result ≡ spec.argument_of text.now }
{
    match text {
        [b'-', digits @ ..] => match digits_value(digits) {
            Some(0) => Some(0),
            _ => None,
        },
        _ => match digits_value(text) {
            Some(n) if n <= u32::MAX as u64 => Some(n as u32),
            _ => None,
        },
    }
}
