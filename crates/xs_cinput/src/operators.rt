//! The operators of C, by their signs.
ghost use Rattle.std.specs.Prelude.{◌≡◌, map};
ghost use Rattle.xs_cinput.specs.Operators as spec;

use crate::{BinaryOp, Step};
use xs_values::{Op, UnOp};

/// The operators between two operands, each with how tightly it binds (C11 6.5.5 to 6.5.14).
pub const BINARY_OPS: [(&str, (BinaryOp, u32)); 18] = [
    ("||", (BinaryOp::Or, 1)),
    ("&&", (BinaryOp::And, 2)),
    ("|", (BinaryOp::On(Op::BitOr), 3)),
    ("^", (BinaryOp::On(Op::BitXor), 4)),
    ("&", (BinaryOp::On(Op::BitAnd), 5)),
    ("==", (BinaryOp::On(Op::Equal), 6)),
    ("!=", (BinaryOp::On(Op::NotEqual), 6)),
    ("<", (BinaryOp::On(Op::Less), 7)),
    (">", (BinaryOp::On(Op::Greater), 7)),
    ("<=", (BinaryOp::On(Op::LessEqual), 7)),
    (">=", (BinaryOp::On(Op::GreaterEqual), 7)),
    ("<<", (BinaryOp::On(Op::ShiftLeft), 8)),
    (">>", (BinaryOp::On(Op::ShiftRight), 8)),
    ("+", (BinaryOp::On(Op::Add), 9)),
    ("-", (BinaryOp::On(Op::Subtract), 9)),
    ("*", (BinaryOp::On(Op::Multiply), 10)),
    ("/", (BinaryOp::On(Op::Divide), 10)),
    ("%", (BinaryOp::On(Op::Remainder), 10)),
];

/// The signs of assignments, and the operator on the old value and the new (C11 6.5.16).
pub const ASSIGNMENTS: [(&str, Option<Op>); 11] = [
    ("=", None),
    ("+=", Some(Op::Add)),
    ("-=", Some(Op::Subtract)),
    ("*=", Some(Op::Multiply)),
    ("/=", Some(Op::Divide)),
    ("%=", Some(Op::Remainder)),
    ("&=", Some(Op::BitAnd)),
    ("|=", Some(Op::BitOr)),
    ("^=", Some(Op::BitXor)),
    ("<<=", Some(Op::ShiftLeft)),
    (">>=", Some(Op::ShiftRight)),
];

/// The operators on a number before their operand (C11 6.5.3.3).
pub const PREFIX_OPS: [(&str, UnOp); 4] = [
    ("-", UnOp::Minus),
    ("+", UnOp::Plus),
    ("!", UnOp::Not),
    ("~", UnOp::Complement),
];

/// The steps of a place (C11 6.5.2.4, 6.5.3.1).
pub const STEPS: [(&str, Step); 2] = [("++", Step::Up), ("--", Step::Down)];

/// What stands beside a word in a table, where it stands first.
pub fn listed<V: Copy>(table: &[(&str, V)], word: &[u8]) -> Option<V>
    ensures { result ≡ spec.listed (map (λ row. (row.0.now, row.1)) table.now) word.now }
{
    for row in table {
        if row.0.as_bytes() == word {
            return Some(row.1);
        }
    }
    None
}
