//! The heap of counted scalars.
ghost use Rattle.std.specs.Option.{option_copied};
ghost use Rattle.std.specs.Prelude.{◌≡◌, ◌<◌, IfOk, IsSome, None, Some, false, length, slice_set};
ghost use Rattle.xs_api.specs.Heaps.{Counts, Lowers, Makes, Sets, value_at};
ghost use Rattle.xs_api.specs.declared.heap.Cell.{Cell};
ghost use Rattle.xs_api.specs.World as World;
ghost use Rattle.xs_api.specs.World.{cell_at, is_uncounted, live_of, new_cells};

use std::alloc::Global;
use std::marker::Model;
use xs_base::{Bytes, Memory};
use xs_values::{Name, Plain};

/// How many names there are at most: 4,000,000 scalars that are made in one run, and those of 0 to
/// 4.
const MOST_NAMES: usize = 4_000_005;

/// A living scalar: what it holds, and how many owners it has.
#[derive(Drop)]
pub struct Cell {
    pub value: Plain,
    pub count: u64,
}

/// Why no scalar is made.
#[derive(Clone, Copy, Debug, PartialEq, Eq)]
pub enum HeapFail {
    /// So many scalars were made as one run may make.
    Large,
    Memory,
}

/// The scalars by their names, None where one is gone.
#[derive(Drop)]
pub struct Heap {
    cells: Vec<Option<Cell>>,
    live: u32,
}

impl Model for Heap {
    ghost use Rattle.xs_api.specs.Heaps.{HeapHolds};
    ghost use Rattle.xs_api.specs.World.{Cells};

    ghost Value = { Cells };

    ghost view = { λ h. h.cells.items };

    ghost invariant = { λ h. HeapHolds h.cells.items h.live };
}

impl Heap {
    /// The four immortals alone.
    pub fn new(alloc: Global) -> Result<Heap, Memory>
        ensures { IfOk result (λ h. h ≡ new_cells) }
    {
        let mut cells = Vec::new(alloc);
        cells.push(None)?;
        cells.push(uncounted(Plain::Undef))?;
        cells.push(uncounted(Plain::Int(1)))?;
        cells.push(uncounted(Plain::Text(Bytes::new(alloc))))?;
        cells.push(uncounted(Plain::Text(Bytes::new(alloc))))?;
        Ok(Heap { cells, live: 0 })
    }

    /// The name that the next new scalar gets.
    pub fn next(&self) -> Name
        ensures { result ≡ length self.now }
    {
        self.cells.len() as Name
    }

    /// How many scalars live that are counted.
    pub fn live(&self) -> u32
        ensures { result ≡ live_of self.now }
    {
        self.live
    }

    /// The value of a scalar, None where it is gone.
    pub fn value(&self, n: Name) -> Option<&Plain>
        ensures { option_copied result ≡ value_at n self.now }
    {
        match self.cells.get(n as usize) {
            Some(Some(cell)) => Some(&cell.value),
            _ => None,
        }
    }

    /// A new scalar with one owner.
    pub fn make(&mut self, value: Plain) -> Result<Name, HeapFail>
        ensures { Makes value self.old result self.new }
    {
        let at = self.cells.len();
        if at >= MOST_NAMES {
            return Err(HeapFail::Large);
        }
        match self.cells.push(Some(Cell { value, count: 1 })) {
            Ok(()) => {
                self.live += 1;
                Ok(at as Name)
            }
            Err(_) => Err(HeapFail::Memory),
        }
    }

    /// Sets the value of a scalar, and answers false where it is gone.
    pub fn set(&mut self, n: Name, value: Plain) -> bool
        ensures { Sets n value self.old result self.new }
    {
        set_value(&mut self.cells, n as usize, value)
    }

    /// Lowers the count of a scalar, which is released at 0, and answers false where it is gone.
    pub fn lower(&mut self, n: Name) -> bool
        requires { is_uncounted n ≡ false }
        ensures { Lowers n self.old result self.new }
    {
        let at = n as usize;
        let Some(count) = count_at(&self.cells, at) else {
            return false;
        };
        if count >= 2 {
            set_count(&mut self.cells, at, count - 1);
        } else {
            remove_at(&mut self.cells, at);
            self.live -= 1;
        }
        true
    }
}

// How many owners a scalar has, None where it is gone.
fn count_at(cells: &Vec<Option<Cell>>, at: usize) -> Option<u64>
    ensures { Counts at cells.now.items result }
{
    match cells.get(at) {
        Some(Some(cell)) => Some(cell.count),
        _ => None,
    }
}

// Sets the count of a scalar that is there.
fn set_count(cells: &mut Vec<Option<Cell>>, at: usize, count: u64)
    requires { IsSome (cell_at at cells.old.items) }
    ensures { (c : Cell) → cell_at at cells.old.items ≡ Some c
        → cells.new.items
        ≡ slice_set cells.old.items at (Some (record { value = c.value; count = count })) }
{
    if let Some(cell) = &mut cells[at] {
        cell.count = count;
    }
}

// Sets the value of a scalar, and answers false where it is gone.
fn set_value(cells: &mut Vec<Option<Cell>>, at: usize, value: Plain) -> bool
    ensures { Sets at value cells.old.items result cells.new.items }
{
    if at >= cells.len() {
        return false;
    }
    match &mut cells[at] {
        None => false,
        Some(cell) => {
            cell.value = value;
            true
        }
    }
}

// Lets a scalar go.
fn remove_at(cells: &mut Vec<Option<Cell>>, at: usize)
    requires { at < length cells.old.items }
    ensures { cells.new.items ≡ slice_set cells.old.items at None }
{
    cells[at] = None;
}

// A scalar that is always there.
fn uncounted(value: Plain) -> Option<Cell>
    ensures { result ≡ World.uncounted value }
{
    Some(Cell { value, count: 0 })
}
