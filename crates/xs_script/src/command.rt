//! The commands of a script.
use xs_base::Bytes;

/// A whole number from -2^63 to 2^64 - 1.
#[derive(Clone, Copy, Debug, PartialEq, Eq)]
pub enum Number {
    Int(i64),
    /// A number above 2^63 - 1.
    Uns(u64),
}

/// An expression whose value a command makes or passes.
#[derive(Drop)]
pub enum E {
    /// `undef`
    Undef,
    Number(Number),
    /// The bytes that a text in quotes stands for.
    Text(Bytes),
    /// The name of a variable.
    Variable(Bytes),
    /// `\NAME`: a reference to the variable's scalar.
    Reference(Bytes),
    /// `[E, E]`: a reference to a new array.
    List(Vec<E>),
    /// `{"key" => E, "key" => E}`: a reference to a new hash. A key may stand twice.
    Hash(Vec<(Bytes, E)>),
    /// `arg K`, in subs only: the argument with this number, counted from 0.
    Argument(u32),
}

/// What a sub does.
#[derive(Drop)]
pub enum Action {
    /// `push E`: a new item.
    Push(E),
    /// `set arg K = E`
    Set(u32, E),
    /// `call SUB(E, E)`
    Call(Bytes, Vec<E>),
    /// `die "text"`
    Die(Bytes),
}

/// A command, with the line that it stands on. Names of subs are without quotes.
#[derive(Drop)]
pub enum Command {
    /// `my NAME = E`
    My(u32, Bytes, E),
    /// `my NAME = call SUB(E, E)`: the variable, the sub and the arguments.
    MyCall(u32, Bytes, Bytes, Vec<E>),
    /// `ro NAME`
    Ro(u32, Bytes),
    /// `call SUB(E, E)`
    Call(u32, Bytes, Vec<E>),
    /// `show NAME`
    Show(u32, Bytes),
    /// `drop NAME`
    Drop(u32, Bytes),
    /// `isa CLASS CLASS`: the second is the parent of the first.
    Isa(u32, Bytes, Bytes),
    /// `sub SUB = ACTION; ACTION`
    Sub(u32, Bytes, Vec<Action>),
}
