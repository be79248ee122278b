//! The variables that are in scope.
ghost use Rattle.std.specs.Prelude.{◌≡◌, ◌∷◌, ◌++◌, IfOk, None, [], length, map, drop, take};
ghost use Rattle.xs_cstmt.specs.StatementViews.{declarator_tree};
ghost use Rattle.xs_ctypes.specs.Scopes as spec;

use crate::names::declared_type;
use indexmap::IndexMap;
use std::alloc::Global;
use std::marker::Model;
use xs_base::{Bytes, Memory};
use xs_csyn::Declarator;
use xs_ctree::{Slot, ValueType};
use xs_perlapi::is_interface_word;

// ---- maps from names to slots

// The slot of a name.
#[tactic(auto, unfolding(crate::specs::Scopes::variable_of))]
fn slot_of(known: &IndexMap<Vec<u8>, Slot>, name: &[u8]) -> Option<Slot>
    ensures { result ≡ spec.variable_of (map spec.held known.now.entries) name.now }
{
    known.get(name).copied()
}

// The slots after the first so many.
fn after(slots: &[Slot], count: usize) -> &[Slot]
    ensures { result.now ≡ drop count slots.now }
{
    match slots.get(count..) {
        None => &[],
        Some(rest) => rest,
    }
}

// The slots of the names after the first so many.
fn slots_from(
    alloc: Global,
    known: &IndexMap<Vec<u8>, Slot>,
    count: usize,
) -> Result<Vec<Slot>, Memory>
    ensures { IfOk result (λ slots. slots.items
        ≡ map (λ v. v.slot) (drop count (map spec.held known.now.entries))) }
{
    let slots = Vec::from_slice(alloc, after(known.values().as_slice(), count))?;
    Ok(slots)
}

// Keeps the first so many names.
fn keep_first(known: &mut IndexMap<Vec<u8>, Slot>, count: usize)
    ensures { map spec.held known.new.entries ≡ take count (map spec.held known.old.entries) }
{
    known.truncate(count);
}

// Adds a slot under a name that has none yet.
fn add_last(
    alloc: Global,
    known: &mut IndexMap<Vec<u8>, Slot>,
    name: &[u8],
    slot: Slot,
) -> Result<(), Memory>
    requires { spec.variable_of (map spec.held known.old.entries) name.now ≡ None }
    ensures { IfOk result (λ _. map spec.held known.new.entries
        ≡ map spec.held known.old.entries ++ record { name = name.now; slot = slot } ∷ []) }
{
    known.insert(Vec::from_slice(alloc, name)?, slot)?;
    Ok(())
}

// ---- scopes

/// The variables that are known where a statement stands, each under its name and in the order of
/// their declarations, and all slots of its function so far.
#[derive(Drop)]
pub struct Scope {
    known: IndexMap<Vec<u8>, Slot>,
    slots: Vec<Slot>,
}

impl Model for Scope {
    ghost use Rattle.std.specs.Prelude.{map};
    ghost use Rattle.xs_ctypes.specs.Scopes as spec;

    ghost Value = { spec.Scope };

    ghost view = { λ s. record {
      variables = map spec.held s.known.entries;
      slots = s.slots.items;
    } };
}

impl Scope {
    /// Where the first statement of a function stands.
    pub fn new(alloc: Global) -> Scope
        ensures { result ≡ spec.beginning }
    {
        Scope {
            known: IndexMap::new(alloc),
            slots: Vec::new(alloc),
        }
    }

    /// How many variables are known.
    pub fn known_count(&self) -> usize
        ensures { result ≡ length self.now.variables }
    {
        self.known.len()
    }

    /// The variable of a name.
    pub fn variable(&self, name: &[u8]) -> Option<Slot>
        ensures { result ≡ spec.variable_of self.now.variables name.now }
    {
        slot_of(&self.known, name)
    }

    /// How many slots there are.
    pub fn slot_count(&self) -> usize
        ensures { result ≡ length self.now.slots }
    {
        self.slots.len()
    }

    /// All slots.
    pub fn into_slots(self) -> Vec<Slot>
        ensures { result.items ≡ self.slots }
    {
        let Scope { slots, .. } = self;
        slots
    }

    /// The slots of the variables after the first so many.
    pub fn slots_after(&self, alloc: Global, count: usize) -> Result<Vec<Slot>, Memory>
        ensures { IfOk result (λ slots. slots.items
            ≡ map (λ v. v.slot) (drop count self.now.variables)) }
    {
        slots_from(alloc, &self.known, count)
    }

    /// Forgets the variables that were declared after the first so many.
    pub fn forget_after(&mut self, count: usize)
        ensures { self.new ≡ spec.knowing count self.old }
    {
        keep_first(&mut self.known, count);
    }

    /// Whether a name may not be declared.
    #[tactic(auto, unfolding(crate::specs::Scopes::is_in_use))]
    pub fn is_in_use(&self, name: &[u8]) -> bool
        ensures { result ≡ spec.is_in_use self.now.variables name.now }
    {
        is_interface_word(name) || self.variable(name).is_some()
    }

    // Declares a variable, whose name is known nowhere yet.
    fn add(&mut self, alloc: Global, name: &[u8], slot: Slot) -> Result<(), Memory>
        requires { spec.variable_of self.now.variables name.now ≡ None }
        ensures { IfOk result (λ _. self.new ≡ spec.new_variable self.old name.now slot) }
    {
        add_last(alloc, &mut self.known, name, slot)?;
        self.slots.push(slot)?;
        Ok(())
    }

    // Declares a variable, where its name is free.
    fn add_free(
        &mut self,
        alloc: Global,
        line: u32,
        name: &[u8],
        of_type: ValueType,
    ) -> Result<(), Memory>
        ensures { IfOk result (λ _. self.new
            ≡ spec.with_variable self.old line name.now of_type) }
    {
        if self.is_in_use(name) {
            return Ok(());
        }
        let Ok(number) = u32::try_from(self.slot_count()) else {
            return Err(Memory);
        };
        self.add(
            alloc,
            name,
            Slot {
                number,
                of_type,
                line,
            },
        )
    }

    /// Declares a name with a type word, where the name is free.
    pub fn declare(&mut self, alloc: Global, base: &Bytes, d: &Declarator) -> Result<(), Memory>
        ensures { IfOk result (λ _. self.new
            ≡ spec.name_behind base.now self.old (declarator_tree d.now)) }
    {
        let of_type = declared_type(base, d.stars);
        self.add_free(alloc, d.line, d.name.as_slice(), of_type)
    }
}
