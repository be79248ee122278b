//! Results at the edges of every kind. Operators and conversions were computed by gcc with its
//! checks for undefined behavior, on x86-64; the kinds of literals by gcc's `_Generic`; the
//! numbers of texts by Python.
use xs_values::Base::{self, Decimal, Hexadecimal, Octal};
use xs_values::Kind::{self, Bool, I8, I16, I32, I64, U8, U16, U32, U64};
use xs_values::Length::{self, Int, Long, LongLong};
use xs_values::Op::{
    self, Add, BitAnd, BitOr, BitXor, Divide, Equal, Greater, GreaterEqual, Less, LessEqual,
    Multiply, NotEqual, Remainder, ShiftLeft, ShiftRight, Subtract,
};
use xs_values::Trap::{self, Overflow, Shift, Zero};
use xs_values::UnOp::{self, Complement, Minus, Not, Plus};

const I64_MIN: i128 = -9223372036854775808;

const I64_MAX: i128 = 9223372036854775807;

const U64_HALF: i128 = 9223372036854775808;

const U64_MAX: i128 = 18446744073709551615;

const IV_MIN: i64 = -9223372036854775808;

const IV_MAX: i64 = 9223372036854775807;

const UV_HALF: u64 = 9223372036854775808;

const UV_MAX: u64 = 18446744073709551615;

pub static SUMS: [(Op, Kind, i128, Kind, i128, Kind, i128); 14] = [
    (Add, I8, 127, I8, 1, I32, 128),
    (Add, U8, 255, U8, 1, I32, 256),
    (Add, I16, 32767, I16, 1, I32, 32768),
    (Add, U16, 65535, U16, 1, I32, 65536),
    (Add, U32, 4294967295, U32, 1, U32, 0),
    (Add, U64, U64_MAX, U64, 1, U64, 0),
    (Add, Bool, 1, Bool, 1, I32, 2),
    (Subtract, I8, -128, I8, 1, I32, -129),
    (Subtract, U32, 0, U32, 1, U32, 4294967295),
    (Add, I8, 127, U64, 200, U64, 327),
    (Add, I32, -1, U32, 0, U32, 4294967295),
    (Subtract, U32, 0, I32, 1, U32, 4294967295),
    (Add, U64, U64_MAX, U64, U64_MAX, U64, 18446744073709551614),
    (Subtract, Bool, 0, Bool, 1, I32, -1),
];

pub static PRODUCTS: [(Op, Kind, i128, Kind, i128, Kind, i128); 7] = [
    (Multiply, I8, 127, I8, 2, I32, 254),
    (Multiply, U32, 4294967295, U32, 2, U32, 4294967294),
    (Multiply, U64, U64_MAX, U64, 2, U64, 18446744073709551614),
    (Multiply, I16, -32768, I16, -1, I32, 32768),
    (Multiply, U64, U64_MAX, U64, U64_MAX, U64, 1),
    (Multiply, U64, U64_HALF, I32, -1, U64, U64_HALF),
    (Multiply, U32, 4294967295, U32, 4294967295, U32, 1),
];

pub static DIVISIONS: [(Op, Kind, i128, Kind, i128, Kind, i128); 11] = [
    (Divide, I8, -128, I8, -1, I32, 128),
    (Remainder, I8, -128, I8, -1, I32, 0),
    (Divide, I32, -7, I32, 2, I32, -3),
    (Remainder, I32, -7, I32, 2, I32, -1),
    (Divide, I32, 7, I32, -2, I32, -3),
    (Remainder, I32, 7, I32, -2, I32, 1),
    (Divide, U64, U64_MAX, U64, U64_HALF, U64, 1),
    (Remainder, U64, U64_MAX, U64, U64_HALF, U64, I64_MAX),
    (Divide, I32, -2147483648, I64, -1, I64, 2147483648),
    (Remainder, I32, -2147483648, I64, -1, I64, 0),
    (Divide, U64, U64_MAX, I32, -1, U64, 1),
];

pub static SHIFTS: [(Op, Kind, i128, Kind, i128, Kind, i128); 13] = [
    (ShiftRight, I8, -128, I32, 1, I32, -64),
    (ShiftRight, U32, 4294967295, I32, 1, U32, 2147483647),
    (ShiftRight, I64, I64_MIN, I32, 1, I64, -4611686018427387904),
    (ShiftRight, U64, U64_MAX, I32, 1, U64, I64_MAX),
    (ShiftLeft, I32, 1, I32, 30, I32, 1073741824),
    (ShiftLeft, U32, 1, I32, 31, U32, 2147483648),
    (ShiftLeft, U64, 1, I32, 63, U64, U64_HALF),
    (ShiftLeft, U64, U64_MAX, I32, 63, U64, U64_HALF),
    (ShiftRight, I32, -1, I32, 31, I32, -1),
    (ShiftRight, I64, I64_MIN, I32, 63, I64, -1),
    (ShiftRight, U64, U64_MAX, U64, 63, U64, 1),
    (ShiftRight, I8, -128, U8, 7, I32, -1),
    (ShiftRight, U32, 4294967295, I32, 31, U32, 1),
];

pub static BITS: [(Op, Kind, i128, Kind, i128, Kind, i128); 8] = [
    (BitAnd, I8, -128, I8, 127, I32, 0),
    (BitXor, I8, -128, I8, 127, I32, -1),
    (BitOr, I8, -128, I8, 127, I32, -1),
    (BitAnd, I32, -1, U8, 255, I32, 255),
    (BitXor, I64, -1, U32, 4294967295, I64, -4294967296),
    (BitOr, I8, -128, U16, 65535, I32, -1),
    (BitAnd, I64, I64_MIN, U64, U64_MAX, U64, U64_HALF),
    (BitXor, I32, -6, I32, 11, I32, -15),
];

pub static COMPARISONS: [(Op, Kind, i128, Kind, i128, Kind, i128); 13] = [
    (Less, I8, -128, I8, 127, I32, 1),
    (Less, I64, I64_MIN, I64, I64_MAX, I32, 1),
    (Less, U64, 0, U64, U64_MAX, I32, 1),
    (Less, I32, -1, U32, 0, I32, 0),
    (LessEqual, I32, -1, U32, 0, I32, 0),
    (Greater, I32, -1, U32, 0, I32, 1),
    (GreaterEqual, I32, -1, U32, 0, I32, 1),
    (Equal, I32, -1, U32, 0, I32, 0),
    (NotEqual, I32, -1, U32, 0, I32, 1),
    (Less, I64, -1, U64, U64_MAX, I32, 0),
    (Equal, I64, -1, U64, U64_MAX, I32, 1),
    (Greater, I64, -1, U32, 1, I32, 0),
    (Less, I32, -2147483648, I64, -2147483649, I32, 0),
];

pub static UNARY: [(UnOp, Kind, i128, Kind, i128); 17] = [
    (Minus, I8, -128, I32, 128),
    (Complement, I8, -128, I32, 127),
    (Minus, U8, 255, I32, -255),
    (Complement, U8, 255, I32, -256),
    (Complement, I32, -2147483648, I32, 2147483647),
    (Minus, U32, 4294967295, U32, 1),
    (Complement, U32, 4294967295, U32, 0),
    (Complement, I64, I64_MIN, I64, I64_MAX),
    (Minus, U64, U64_MAX, U64, 1),
    (Complement, U64, U64_MAX, U64, 0),
    (Minus, Bool, 1, I32, -1),
    (Complement, Bool, 1, I32, -2),
    (Plus, I8, -128, I32, -128),
    (Minus, U32, 0, U32, 0),
    (Minus, U64, 1, U64, U64_MAX),
    (Not, I64, I64_MIN, I32, 0),
    (Not, Bool, 1, I32, 0),
];

pub static TRAPS: [(Op, Kind, i128, Kind, i128, Trap); 35] = [
    (Add, I32, 2147483647, I32, 1, Overflow),
    (Add, I64, I64_MAX, I64, 1, Overflow),
    (Subtract, I64, I64_MIN, I64, 1, Overflow),
    (Add, I64, I64_MIN, I64, -1, Overflow),
    (Subtract, I64, 0, I64, I64_MIN, Overflow),
    (Multiply, I32, 2147483647, I32, 2, Overflow),
    (Multiply, I64, I64_MAX, I64, 2, Overflow),
    (Multiply, I32, -2147483648, I32, -1, Overflow),
    (Multiply, I64, I64_MIN, I64, -1, Overflow),
    (Multiply, I64, I64_MAX, I64, I64_MAX, Overflow),
    (Multiply, I64, I64_MIN, I64, I64_MIN, Overflow),
    (Multiply, U16, 65535, U16, 65535, Overflow),
    (Divide, I32, -2147483648, I32, -1, Overflow),
    (Remainder, I32, -2147483648, I32, -1, Overflow),
    (Divide, I64, I64_MIN, I64, -1, Overflow),
    (Remainder, I64, I64_MIN, I64, -1, Overflow),
    (Divide, I8, 127, I8, 0, Zero),
    (Divide, U32, 4294967295, U32, 0, Zero),
    (Divide, I64, I64_MAX, I64, 0, Zero),
    (Remainder, U64, U64_MAX, I32, 0, Zero),
    (Divide, I64, I64_MIN, I32, -1, Overflow),
    (Remainder, I64, I64_MIN, I32, -1, Overflow),
    (ShiftLeft, I32, 1, I32, 31, Overflow),
    (ShiftLeft, I32, 1, I32, 32, Shift),
    (ShiftLeft, U32, 1, I32, 32, Shift),
    (ShiftLeft, I64, 1, I32, 63, Overflow),
    (ShiftLeft, I64, 1, I32, 64, Shift),
    (ShiftLeft, U64, 1, I32, 64, Shift),
    (ShiftLeft, I32, -1, I32, 0, Overflow),
    (ShiftLeft, I32, -1, I32, 1, Overflow),
    (ShiftLeft, I32, 1, I32, -1, Shift),
    (ShiftRight, I32, 1, I32, -1, Shift),
    (ShiftLeft, I32, 1, I64, 4294967296, Shift),
    (ShiftRight, I32, 1, U64, U64_MAX, Shift),
    (ShiftLeft, U8, 255, I32, 24, Overflow),
];

pub static UNARY_TRAPS: [(UnOp, Kind, i128, Trap); 2] = [
    (Minus, I32, -2147483648, Overflow),
    (Minus, I64, I64_MIN, Overflow),
];

pub static CONVERSIONS: [(Kind, i128, i128); 16] = [
    (I8, -129, 127),
    (I8, 128, -128),
    (U8, -1, 255),
    (U8, 256, 0),
    (I16, -32769, 32767),
    (I16, 32768, -32768),
    (U16, -1, 65535),
    (U16, 65536, 0),
    (I32, -2147483649, 2147483647),
    (I32, 2147483648, -2147483648),
    (U32, -1, 4294967295),
    (U32, 4294967296, 0),
    (I64, U64_HALF, I64_MIN),
    (U64, -1, U64_MAX),
    (Bool, -1, 1),
    (Bool, 2, 1),
];

pub static LITERALS: [(Base, bool, Length, u64, Kind); 24] = [
    (Decimal, false, Int, 2147483647, I32),
    (Decimal, false, Int, 2147483648, I64),
    (Decimal, false, Int, 4294967296, I64),
    (Decimal, false, Int, 9223372036854775808, U64),
    (Octal, false, Int, 2147483648, U32),
    (Octal, false, Int, 9223372036854775808, U64),
    (Hexadecimal, false, Int, 2147483647, I32),
    (Hexadecimal, false, Int, 2147483648, U32),
    (Hexadecimal, false, Int, 4294967296, I64),
    (Hexadecimal, false, Int, 9223372036854775808, U64),
    (Decimal, true, Int, 1, U32),
    (Decimal, true, Int, 4294967296, U64),
    (Decimal, false, Long, 1, I64),
    (Decimal, false, Long, 9223372036854775808, U64),
    (Decimal, true, Long, 1, U64),
    (Decimal, true, Long, 9223372036854775808, U64),
    (Decimal, false, LongLong, 1, I64),
    (Decimal, false, LongLong, 9223372036854775808, U64),
    (Decimal, true, LongLong, 1, U64),
    (Decimal, true, LongLong, 9223372036854775808, U64),
    (Hexadecimal, true, Int, 1, U32),
    (Hexadecimal, true, Int, 4294967296, U64),
    (Hexadecimal, false, Long, 1, I64),
    (Hexadecimal, false, Long, 9223372036854775808, U64),
];

pub static TEXTS: [(&str, i64, u64, bool); 19] = [
    ("", 0, 0, false),
    ("0", 0, 0, false),
    ("00", 0, 0, true),
    (" ", 0, 0, true),
    ("-0", 0, 0, true),
    ("+7", 7, 7, true),
    ("--7", 0, 0, true),
    ("- 7", 0, 0, true),
    (" \t\n\x0b\x0c\r12x", 12, 12, true),
    ("9223372036854775807", IV_MAX, UV_HALF - 1, true),
    ("9223372036854775808", IV_MAX, UV_HALF, true),
    ("18446744073709551615", IV_MAX, UV_MAX, true),
    ("18446744073709551616", IV_MAX, UV_MAX, true),
    ("-1", -1, UV_MAX, true),
    ("-9223372036854775808", IV_MIN, UV_HALF, true),
    ("-9223372036854775809", IV_MIN, UV_HALF, true),
    ("-99999999999999999999", IV_MIN, UV_HALF, true),
    ("000000000000000000000000042", 42, 42, true),
    ("1e3", 1, 1, true),
];

pub static UVS: [(u64, i64, &str); 4] = [
    (0, 0, "0"),
    (UV_HALF - 1, IV_MAX, "9223372036854775807"),
    (UV_HALF, IV_MAX, "9223372036854775808"),
    (UV_MAX, IV_MAX, "18446744073709551615"),
];

pub static IVS: [(i64, u64, &str); 4] = [
    (0, 0, "0"),
    (-1, UV_MAX, "-1"),
    (IV_MAX, UV_HALF - 1, "9223372036854775807"),
    (IV_MIN, UV_HALF, "-9223372036854775808"),
];
