//! A command of a script that can be run so far.
use xs_base::{Bytes, Items};

/// A call of an XSUB in list form: `call NAME(N, ..)`.
#[derive(Debug, Drop)]
pub struct CallCommand {
    /// The line of the command in the script, counted from 1.
    pub line: u32,
    /// The full name that is called, with its package.
    pub sub: Bytes,
    /// The arguments from left to right, each a number that an IV holds.
    pub args: Items<i64>,
}
