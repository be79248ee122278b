//! The faults of the types stage.
ghost use Rattle.std.specs.Prelude.{◌≡◌, IfOk, []};
ghost use Rattle.std.specs.Str.{bytes_eq};
ghost use Rattle.xs_base.specs.declared.fault.Refuse.TheVariants as refuse;
ghost use Rattle.xs_base.specs.declared.fault_codes.TheConstants as codes;
ghost use Rattle.xs_ctypes.specs.Checked as spec;
ghost use Rattle.xs_ctypes.specs.Checked.{unknown_code};

use std::alloc::Global;
use xs_base::fault_codes::{TYPES_DIFFER, WORD_NOT_ALLOWED};
use xs_base::{Bytes, Fault, FileOf, Memory, Refuse};
use xs_perlapi::is_interface_word;

/// The fault of types that do not go together.
pub fn types_differ(alloc: Global, line: u32) -> Refuse
    ensures { result ≡ refuse.Fault (spec.fault line codes.TYPES_DIFFER []) }
{
    Refuse::Fault(Fault::bare(alloc, FileOf::Text, line, TYPES_DIFFER))
}

/// The fault of a form that is not built yet.
pub fn not_built(alloc: Global, line: u32) -> Refuse
    ensures { result ≡ refuse.Fault (spec.fault line codes.NOT_BUILT []) }
{
    Refuse::Fault(Fault::not_built(alloc, FileOf::Text, line))
}

/// The fault of a word.
pub fn worded(alloc: Global, line: u32, code: u16, word: &[u8]) -> Result<Fault, Memory>
    ensures { IfOk result (λ f. f ≡ spec.fault line code word.now) }
{
    let word = Bytes::from_slice(alloc, word)?;
    Ok(Fault::new(FileOf::Text, line, code, word))
}

/// The fault of a name that means nothing where it stands.
pub fn unknown(alloc: Global, code: u16, line: u32, name: &[u8]) -> Result<Fault, Memory>
    ensures { IfOk result (λ f. f ≡ spec.fault line (unknown_code code name.now) name.now) }
{
    if is_interface_word(name) {
        worded(alloc, line, WORD_NOT_ALLOWED, name)
    } else {
        worded(alloc, line, code, name)
    }
}

/// Whether a word is another.
pub fn is(word: &[u8], other: &[u8]) -> bool
    ensures { result ≡ bytes_eq word.now other.now }
{
    word == other
}
