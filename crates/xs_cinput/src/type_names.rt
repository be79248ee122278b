//! Names of types.
ghost use Rattle.std.specs.Prelude.{◌≡◌, [], OnOk, Some};
ghost use Rattle.xs_base.specs.Names.{is_among};
ghost use Rattle.xs_cinput.specs.TypeReader.{with_name};

use indexmap::IndexSet;
use std::alloc::Global;
use std::marker::Model;
use xs_base::Memory;

/// Names of types. Contracts see the list of them, each where it was added first.
#[derive(Drop)]
pub struct TypeNames {
    names: IndexSet<Vec<u8>>,
}

impl Model for TypeNames {
    ghost use Rattle.std.specs.Prelude.{List, map, ℕ};

    ghost Value = { List (List ℕ) };

    ghost view = { λ t. map (λ name. name.items) t.names.keys };
}

impl TypeNames {
    /// No names.
    pub fn new(alloc: Global) -> TypeNames
        ensures { result ≡ [] }
    {
        TypeNames {
            names: IndexSet::new(alloc),
        }
    }

    /// Whether a word is one of these names.
    pub fn has(&self, word: &[u8]) -> bool
        ensures { result ≡ is_among self.now word.now }
    {
        self.names.contains(word)
    }

    /// Adds a name.
    pub fn add(&mut self, alloc: Global, name: &[u8]) -> Result<(), Memory>
        ensures { OnOk result (self.new ≡ with_name self.old (Some name.now)) }
    {
        if !self.has(name) {
            self.names.insert(Vec::from_slice(alloc, name)?)?;
        }
        Ok(())
    }
}
