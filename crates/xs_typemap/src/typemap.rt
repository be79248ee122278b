//! What a typemap holds.
ghost use Rattle.std.specs.Option.{option_copied};
ghost use Rattle.std.specs.Prelude.{◌≡◌, OnErr, OnOk};
ghost use Rattle.xs_typemap.specs.TypemapEntries as spec;

use crate::maps::{set, set_all, value_of};
use indexmap::IndexMap;
use std::alloc::Global;
use std::marker::Model;
use xs_base::{Bytes, FileOf, Items, Memory};

/// The code that converts values of a kind: the file in which it stands, the line of the kind's
/// name there, 0 for a kind of the core typemap, and the lines of the code as they stand.
#[derive(Debug, Drop)]
pub struct Code {
    pub file: FileOf,
    pub line: u32,
    pub lines: Items<Bytes>,
}

/// Which kind each type has, and the input code and output code of each kind.
#[derive(Drop)]
pub struct Typemap {
    types: IndexMap<Vec<u8>, Bytes>,
    inputs: IndexMap<Vec<u8>, Code>,
    outputs: IndexMap<Vec<u8>, Code>,
}

impl Model for Typemap {
    ghost use Rattle.xs_typemap.specs.TypemapEntries.{Entries, entries_of, words_in};

    ghost Value = { Entries };

    ghost view = { λ m. entries_of (words_in m.types) (words_in m.inputs) (words_in m.outputs) };
}

impl Typemap {
    /// No entries.
    pub fn new(alloc: Global) -> Typemap
        ensures { result ≡ spec.no_entries }
    {
        Typemap {
            types: IndexMap::new(alloc),
            inputs: IndexMap::new(alloc),
            outputs: IndexMap::new(alloc),
        }
    }

    /// The kind of a type, and None exactly where no entry has the type. The type is to be tidied.
    pub fn find(&self, ctype: &Bytes) -> Option<&Bytes>
        ensures { option_copied result ≡ spec.kind_of self.now ctype.now }
    {
        value_of(&self.types, ctype.as_slice())
    }

    /// The input code or the output code of a kind, and None exactly where the kind has none.
    pub fn code(&self, kind: &Bytes, input: bool) -> Option<&Code>
        ensures { option_copied result ≡ spec.code_of self.now kind.now input }
    {
        if input {
            value_of(&self.inputs, kind.as_slice())
        } else {
            value_of(&self.outputs, kind.as_slice())
        }
    }

    /// Gives a type its kind.
    pub fn set_type(&mut self, alloc: Global, ctype: &[u8], kind: Bytes) -> Result<(), Memory>
        ensures { OnOk result (self.new ≡ spec.with_type ctype.now kind self.old) }
    {
        set(alloc, &mut self.types, ctype, kind)
    }

    /// Gives a kind its input code or its output code.
    pub fn set_code(
        &mut self,
        alloc: Global,
        input: bool,
        kind: &[u8],
        code: Code,
    ) -> Result<(), Memory>
        ensures { OnOk result (self.new ≡ spec.with_code input kind.now code self.old) }
    {
        if input {
            set(alloc, &mut self.inputs, kind, code)
        } else {
            set(alloc, &mut self.outputs, kind, code)
        }
    }
}

/// Adds the entries of a later typemap: an entry of it replaces an earlier one of the same type or
/// kind. Where memory is not found nothing changes.
pub fn merge(a: &mut Typemap, b: Typemap) -> Result<(), Memory>
    ensures ok { OnOk result (a.new ≡ spec.merged a.old b) }
    ensures err { OnErr result (a.new ≡ a.old) }
{
    let Typemap {
        types,
        inputs,
        outputs,
    } = b;
    a.types.reserve(types.len())?;
    a.inputs.reserve(inputs.len())?;
    a.outputs.reserve(outputs.len())?;
    set_all(&mut a.types, types);
    set_all(&mut a.inputs, inputs);
    set_all(&mut a.outputs, outputs);
    Ok(())
}
