//! The nodes of typed code. A node names its parts by their indices, and they stand before it.
ghost use Rattle.std.specs.Prelude.{◌≡◌};
ghost use Rattle.xs_ctree.specs.TypedTree as tree;

use crate::value_type::{Slot, ValueType};
use xs_base::Bytes;
use xs_perlapi::Row;
use xs_values::{CInt, Kind, Op, UnOp};

/// Elements of a list that stand side by side: where the first is, and how many there are.
#[derive(Clone, Copy, Debug)]
pub struct Range {
    pub start: u32,
    pub count: u32,
}

/// What is assigned to: a variable by its slot and type; what the address in a slot points to, with
/// its kind; a field by the slot of the pointer, the record, the field and its kind; or an item of
/// the argument stack by the expression of its index.
#[derive(Clone, Copy, Debug)]
pub enum TargetNode {
    Variable(u32, ValueType),
    Pointed(u32, Kind),
    Field(u32, u32, u32, Kind),
    Item(u32),
}

/// `++` and `--`, in front of what they step and behind it (C11 6.5.3.1, 6.5.2.4).
#[derive(Clone, Copy, Debug, PartialEq, Eq)]
pub enum StepOp {
    /// `++v`: the value is the new one.
    PrefixIncrement,
    /// `--v`
    PrefixDecrement,
    /// `v++`: the value is the old one.
    PostfixIncrement,
    /// `v--`
    PostfixDecrement,
}

/// An expression. A line stands first where one is told of the node.
#[derive(Clone, Copy, Debug)]
pub enum ExprNode {
    Literal(CInt),
    /// A text literal, by its index among the texts.
    Letters(u32),
    /// `NULL`, as a pointer of a type.
    Null(ValueType),
    /// A variable by its slot.
    Variable(u32),
    /// `items`
    ItemCount,
    /// `ix`
    AliasIndex,
    /// An expression in parentheses.
    Passed(u32),
    /// The result of a helper's call, which is read.
    Read(u32),
    Cast(ValueType, u32),
    /// `INT2PTR`: the record, and the number of the pointer.
    RecordOf(u32, u32),
    /// `s[i]`: the text, and the index of the byte.
    ByteAt(u32, u32),
    /// `p->f`: the line, the slot of the pointer, the record and the field.
    Field(u32, u32, u32, u32),
    /// `!`
    Not(u32),
    Unary(UnOp, u32),
    Binary(Op, u32, u32),
    /// `==` of pointers where this is true, else `!=`.
    Same(bool, u32, u32),
    /// `&&`
    And(u32, u32),
    /// `||`
    Or(u32, u32),
    /// `?:`: the line, the type of its value, the condition, and the two others.
    Choice(u32, ValueType, u32, u32, u32),
    /// `&v`, by the slot of the variable.
    Address(u32),
    /// `(char *)&v`: the one byte of the variable of a slot, as a text.
    Letter(u32),
    /// `*e`: the line, the type of what is read, and the pointer.
    Pointed(u32, ValueType, u32),
    /// The line, the operator, and what is stepped.
    StepOf(u32, StepOp, TargetNode),
    /// An assignment: the line, what is assigned to, and the value.
    Assign(u32, TargetNode, u32),
    /// An assignment with an operator: the line, what is assigned to, the operator, and its right
    /// operand.
    Compound(u32, TargetNode, Op, u32),
    /// A row of Perl's API: the line, the row, and the operands, a range of the parts.
    Api(u32, Row, Range),
    /// `SvPV`: the line, the slot of the variable that gets the length, and the scalar.
    TextWithLength(u32, u32, u32),
    /// `croak`: the line, the format by its index among the texts, and the operands, a range of the
    /// parts.
    Croak(u32, u32, Range),
    /// `croak_xs_usage`: the line, and the text of the parameters by its index among the texts.
    Usage(u32, u32),
    /// The call of a helper: the line, the number of the function, and the arguments, a range of
    /// the parts.
    Call(u32, u32, Range),
}

/// When a loop goes on: always, or where the value of an expression is true.
#[derive(Clone, Copy, Debug)]
pub enum TestNode {
    Always,
    When(u32),
}

/// A statement. A line stands first where one is told of the node.
#[derive(Clone, Copy, Debug)]
pub enum StmtNode {
    /// The slots that the block declares, and its statements, a range of the parts.
    Block(Range, Range),
    /// An expression whose value is dropped.
    Effect(u32),
    /// The line, and the slot that is unset from here on.
    Declare(u32, u32),
    /// The line, the condition, and what is run where it holds and where it does not.
    If(u32, u32, u32, u32),
    /// `while`, `do` and `for`: the line, whether the test comes before the first turn, the test,
    /// the expression after each turn, and the body.
    Loop(u32, bool, TestNode, Option<u32>, u32),
    /// `switch`: the line, the kind in which the labels are compared, the value, and the groups, a
    /// range of the groups.
    Switch(u32, Kind, u32, Range),
    Break(u32),
    Continue(u32),
    /// `return` without a value.
    Return(u32),
    /// `return` with a value: the line, and the value.
    Give(u32, u32),
    /// The line, and an expression after which nothing of the function is run.
    Quit(u32, u32),
    /// `newXS_deffile` with the Perl name, by its index among the texts, and the number of the
    /// function; whether `cv` keeps what was registered.
    Register(u32, u32, bool),
    /// `XSANY.any_i32 = N;`: the value of `ix` under the name that `cv` keeps.
    SetIndex(CInt),
    /// `Newxz`: the line, the slot of the pointer, and the record.
    NewRecord(u32, u32, u32),
}

/// A group of a `switch`: its labels, a range of the labels, and its statements, a range of the
/// parts.
#[derive(Clone, Copy, Debug)]
pub struct GroupNode {
    pub labels: Range,
    pub body: Range,
}

/// The parts of a group of a `switch`: its labels, None for `default`, and the indices of its
/// statements.
#[derive(Debug, Drop)]
pub struct Group {
    pub labels: Vec<Option<CInt>>,
    pub body: Vec<u32>,
}

/// What a function is.
#[derive(Clone, Copy, Debug, PartialEq, Eq)]
pub enum Sort {
    /// A function of the C part: the number of its parameters, and the type of its result.
    Helper(u32, ValueType),
    XsFunction,
    /// The XS function that registers the others.
    Boot,
}

/// A function of the file.
#[derive(Debug, Drop)]
pub struct FunctionNode {
    pub name: Bytes,
    pub sort: Sort,
    /// Its variables, in the order of their numbers.
    pub slots: Vec<Slot>,
    /// The index of its body's statement.
    pub body: u32,
}

/// A function as the machine enters it: how many slots it has, and the index of its body.
#[derive(Clone, Copy, Debug)]
pub struct Callable {
    pub slots: usize,
    pub body: u32,
}

// Whether a function is the boot function.
pub(crate) fn is_boot(sort: Sort) -> bool
    ensures { result ≡ tree.is_boot sort }
{
    match sort {
        Sort::Boot => true,
        Sort::Helper(_, _) | Sort::XsFunction => false,
    }
}
