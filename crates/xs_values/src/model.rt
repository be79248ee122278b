//! The sizes of C's types.

/// A data model, which says how many bits each integer type of C has.
#[derive(Clone, Copy, Debug, PartialEq, Eq)]
pub enum DataModel {
    /// `int` has 32 bits, `long`, `long long` and pointers have 64.
    Lp64,
}
