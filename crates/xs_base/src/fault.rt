//! What is wrong in the input, and why a reader gives no value.
ghost use Rattle.std.specs.Prelude.{◌≡◌, []};
ghost use Rattle.xs_base.specs.Reading.{fault_in, not_built_in};
ghost use Rattle.xs_base.specs.declared.fault.Refuse.TheVariants as refuse;

use crate::fault_codes::NOT_BUILT;
use crate::{Bytes, FileOf, Memory};
use std::alloc::{AllocError, AllocFailed, Global};

/// A fault of the input: where it stands, the number of the refusal, and the word at fault. The
/// line is 0 where the fault has no place in the file, and the word is empty where the refusal has
/// none.
#[derive(Debug, Drop)]
pub struct Fault {
    pub file: FileOf,
    pub line: u32,
    pub code: u16,
    pub word: Bytes,
}

impl Fault {
    /// A fault with a word.
    pub fn new(file: FileOf, line: u32, code: u16, word: Bytes) -> Fault
        ensures { result ≡ fault_in file line code word }
    {
        Fault {
            file,
            line,
            code,
            word,
        }
    }

    /// A fault that has no word.
    pub fn bare(alloc: Global, file: FileOf, line: u32, code: u16) -> Fault
        ensures { result ≡ fault_in file line code [] }
    {
        Fault::new(file, line, code, Bytes::new(alloc))
    }

    /// The fault of a form that is not built yet.
    pub fn not_built(alloc: Global, file: FileOf, line: u32) -> Fault
        ensures { result ≡ not_built_in file line }
    {
        Fault::bare(alloc, file, line, NOT_BUILT)
    }
}

/// Why a reader of the input gives no value.
#[derive(Debug, Drop)]
pub enum Refuse {
    Fault(Fault),
    Memory,
}

impl From<Memory> for Refuse {
    ghost from_gives = { λ _ e. e ≡ refuse.Memory };

    fn from(_: Memory) -> Refuse {
        Refuse::Memory
    }
}

impl From<AllocError> for Refuse {
    ghost from_gives = { λ _ e. e ≡ refuse.Memory };

    fn from(_: AllocError) -> Refuse {
        Refuse::Memory
    }
}

impl<T: Drop> From<AllocFailed<T>> for Refuse {
    ghost from_gives = { λ _ e. e ≡ refuse.Memory };

    fn from(_: AllocFailed<T>) -> Refuse {
        Refuse::Memory
    }
}
