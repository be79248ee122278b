//! The rows of Perl's API, on counted scalars and Perl's stacks.
ghost use Rattle.std.specs.Prelude.{◌≡◌, ◌-◌, ◌≤ℤ◌, ◌^◌, IfOk, Err, MatchResult, drop, neg_ℤ, pos, take};
ghost use Rattle.xs_api.specs.ArgumentList.{Puts, item_index};
ghost use Rattle.xs_api.specs.Rows as rows;
ghost use Rattle.xs_api.specs.PerlViews.{Does, Finds, Lacks, MakesTemporary, Sweeps, world_of};
ghost use Rattle.xs_api.specs.World as world;
ghost use Rattle.xs_api.specs.World.{free_above};

use crate::heap::{Heap, HeapFail};
use crate::stacks::{Depths, MOST_ITEMS, Stacks, pop_top, push_top};
use std::alloc::Global;
use xs_base::{Bytes, Items, Memory};
use xs_values::{CInt, Kind, Name, Plain, Trap, to_iv, wrap};

/// The name of yes.
const YES: Name = 2;

/// What an expression of C has: a number, a scalar's pointer, or nothing for `void`. A variable may
/// be unset.
#[derive(Clone, Copy, Debug)]
pub enum Operand {
    Unset,
    Num(CInt),
    /// `SV *`, None for NULL.
    Scalar(Option<Name>),
    Void,
}

/// How a run leaves the place where it stands.
#[derive(Debug, Drop)]
pub enum Abrupt {
    /// An XS function returns these items.
    Returns(Items<Name>),
    /// A croak with its text.
    Croaks(Bytes),
    Traps(Trap),
    /// A turn was due and none was left.
    Spent,
}

/// Why a row gives no value.
#[derive(Debug, Drop)]
pub enum Halt {
    Way(Abrupt),
    Memory,
}

impl From<Memory> for Halt {
    ghost use Rattle.xs_api.specs.declared.api.Halt.TheVariants as halt;

    ghost from_gives = { λ _ e. e ≡ halt.Memory };

    fn from(_: Memory) -> Halt {
        Halt::Memory
    }
}

impl From<Trap> for Halt {
    ghost use Rattle.xs_api.specs.declared.api.Abrupt.TheVariants as abrupt;
    ghost use Rattle.xs_api.specs.declared.api.Halt.TheVariants as halt;

    ghost from_gives = { λ t e. e ≡ halt.Way (abrupt.Traps t) };

    fn from(trap: Trap) -> Halt {
        Halt::Way(Abrupt::Traps(trap))
    }
}

impl From<Stop> for Halt {
    ghost use Rattle.xs_api.specs.PerlViews.{halt_of};

    ghost from_gives = { λ s e. e ≡ halt_of s };

    fn from(stop: Stop) -> Halt {
        match stop {
            Stop::Trap(trap) => Halt::from(trap),
            Stop::Memory => Halt::Memory,
        }
    }
}

/// What an XS function knows of its call.
#[derive(Debug, Drop)]
pub struct Frame {
    /// The name under which it was called.
    pub called: Bytes,
    /// The index of its first argument.
    pub base: u32,
    /// How many arguments it has.
    pub items: u32,
}

/// A Perl name that a function is registered under.
#[derive(Debug, Drop)]
pub struct Registered {
    pub name: Bytes,
    /// The number of the function in the file's order.
    pub function: u32,
}

/// Why a call of the runner gives nothing.
#[derive(Clone, Copy, Debug, PartialEq, Eq)]
pub enum Stop {
    Trap(Trap),
    Memory,
}

impl From<Memory> for Stop {
    ghost use Rattle.xs_api.specs.declared.api.Stop.TheVariants as stop;

    ghost from_gives = { λ _ e. e ≡ stop.Memory };

    fn from(_: Memory) -> Stop {
        Stop::Memory
    }
}

/// What the rows work on.
#[derive(Drop)]
pub struct Perl {
    pub alloc: Global,
    pub heap: Heap,
    pub stacks: Stacks,
    /// The registered names, the newest last.
    pub names: Vec<Registered>,
}

fn trapped(trap: Trap) -> Result<Operand, Halt>
    ensures { result ≡ Err (Halt.Way (Abrupt.Traps trap)) }
{
    Err(Halt::from(trap))
}

impl Perl {
    // Why a scalar that is not in the heap gives nothing.
    fn gone(&self, n: Name) -> Trap
        ensures { result ≡ world.gone n self.now.heap }
    {
        Trap::Gone {
            name: n,
            next: self.heap.next(),
        }
    }

    // The name and the value of a scalar that a row needs.
    fn needed(&self, s: Option<Name>) -> Result<(Name, &Plain), Trap>
        ensures { MatchResult result (λ found. Finds s (world_of self.now) found.0 found.1.now)
            (λ trap. Lacks s (world_of self.now) trap) }
    {
        let Some(n) = s else {
            return Err(Trap::Null);
        };
        match self.heap.value(n) {
            None => Err(self.gone(n)),
            Some(value) => Ok((n, value)),
        }
    }

    /// `SvIV`: the number of a scalar as an IV (perlapi, "SV Handling").
    pub fn sv_iv(&self, s: Option<Name>, frame: &Frame) -> Result<Operand, Halt>
        ensures { Does (rows.sv_iv s frame.now (world_of self.now)) result frame.now
            (world_of self.now) }
    {
        let (_, value) = self.needed(s)?;
        Ok(Operand::Num(CInt::from_iv(to_iv(value))))
    }

    /// A new scalar with a value that is a temporary.
    pub fn make_temporary(&mut self, value: Plain) -> Result<Name, Stop>
        ensures { MakesTemporary value (world_of self.old) result (world_of self.new) }
    {
        match self.heap.make(value) {
            Ok(n) => {
                push_top(&mut self.stacks.temps, n)?;
                Ok(n)
            }
            Err(HeapFail::Large) => Err(Stop::Trap(Trap::Large)),
            Err(HeapFail::Memory) => Err(Stop::Memory),
        }
    }

    /// A new scalar that is a temporary: `sv_newmortal` where the value is undef (perlguts,
    /// "Reference Counts and Mortality").
    pub fn new_mortal(&mut self, value: Plain, frame: &Frame) -> Result<Operand, Halt>
        ensures { Does (rows.new_mortal value frame.now (world_of self.old)) result frame.now
            (world_of self.new) }
    {
        let n = self.make_temporary(value)?;
        Ok(Operand::Scalar(Some(n)))
    }

    /// `sv_setiv`: sets a scalar to a number, as an IV. A read-only scalar croaks (perlguts,
    /// "Working with SVs").
    pub fn sv_setiv(&mut self, s: Option<Name>, v: CInt, frame: &Frame) -> Result<Operand, Halt>
        ensures { Does (rows.sv_setiv s v frame.now (world_of self.old)) result frame.now
            (world_of self.new) }
    {
        let (n, _) = self.needed(s)?;
        if 1 <= n && n <= 3 {
            let text = Bytes::from_slice(
                self.alloc,
                b"Modification of a read-only value attempted",
            )?;
            return Err(Halt::Way(Abrupt::Croaks(text)));
        }
        let iv = wrap(Kind::I64, v.value()).value() as i64;
        if !self.heap.set(n, Plain::Int(iv)) {
            return trapped(self.gone(n));
        }
        Ok(Operand::Void)
    }

    /// `ST(i)`: the item at an index counted from the base (perlxs, "The Argument Stack").
    pub fn st_read(&self, i: CInt, frame: &Frame) -> Result<Operand, Halt>
        ensures { Does (rows.st_read i.value frame.now (world_of self.now)) result frame.now
            (world_of self.now) }
    {
        let Some(at) = index_of(frame.base, i.value(), self.stacks.args.len()) else {
            return trapped(Trap::Bounds);
        };
        match self.stacks.args.get(at) {
            None => trapped(Trap::Bounds),
            Some(n) => Ok(Operand::Scalar(Some(*n))),
        }
    }

    /// `ST(i) = s`: writes a scalar at an index counted from the base. One past the list it
    /// appends.
    pub fn st_set(&mut self, s: Option<Name>, i: CInt, frame: &Frame) -> Result<Operand, Halt>
        ensures { Does (rows.st_set s i.value frame.now (world_of self.old)) result frame.now
            (world_of self.new) }
    {
        let (n, _) = self.needed(s)?;
        let Some(at) = index_of(frame.base, i.value(), self.stacks.args.len()) else {
            return trapped(Trap::Bounds);
        };
        put_item(&mut self.stacks.args, at, n)?;
        Ok(Operand::Scalar(Some(n)))
    }

    /// `dXSARGS`: pops the mark, which is the base (perlapi, "Stack Manipulation Macros").
    pub fn entry(&mut self, frame: &mut Frame) -> Result<Operand, Halt>
        ensures { Does (rows.pop_mark (world_of self.old).marks frame.old (world_of self.old))
            result frame.new (world_of self.new) }
    {
        match pop_top(&mut self.stacks.marks) {
            None => trapped(Trap::Scope),
            Some(mark) => {
                frame.base = mark;
                frame.items = self.stacks.top.saturating_sub(mark);
                Ok(Operand::Void)
            }
        }
    }

    // Returns what stands from the base up to a top.
    fn return_to(&mut self, top: u32, frame: &Frame) -> Result<Operand, Halt>
        ensures { Does (rows.returned_to top frame.now (world_of self.old)) result frame.now
            (world_of self.new) }
    {
        let items = items_between(
            self.alloc,
            &self.stacks.args,
            frame.base as usize,
            top as usize,
        )?;
        self.stacks.cut_args(top);
        Err(Halt::Way(Abrupt::Returns(items)))
    }

    /// `XSRETURN(n)`: returns the first items from the base.
    pub fn xsreturn(&mut self, n: CInt, frame: &Frame) -> Result<Operand, Halt>
        ensures { Does (rows.xsreturn n.value frame.now (world_of self.old)) result frame.now
            (world_of self.new) }
    {
        match index_of(frame.base, n.value(), self.stacks.args.len()) {
            None => trapped(Trap::Bounds),
            Some(top) => self.return_to(top as u32, frame),
        }
    }

    /// `XSRETURN_YES`: returns the immortal yes.
    pub fn xsreturn_yes(&mut self, frame: &Frame) -> Result<Operand, Halt>
        ensures { Does (rows.return_one rows.yes frame.now (world_of self.old)) result frame.now
            (world_of self.new) }
    {
        put_item(&mut self.stacks.args, frame.base as usize, YES)?;
        self.return_to(frame.base + 1, frame)
    }

    /// The end of an XS function: returns all from the base to the top.
    pub fn xs_end(&mut self, frame: &Frame) -> Result<Operand, Halt>
        ensures { Does (rows.returned_to (world_of self.old).top frame.now (world_of self.old))
            result frame.now (world_of self.new) }
    {
        self.return_to(self.stacks.top, frame)
    }

    /// `newXS_deffile`: registers a function under a Perl name.
    pub fn register(&mut self, name: &[u8], function: u32, frame: &Frame) -> Result<Operand, Halt>
        ensures { Does (rows.register name.now function frame.now (world_of self.old)) result
            frame.now (world_of self.new) }
    {
        let name = Bytes::from_slice(self.alloc, name)?;
        push_top(&mut self.names, Registered { name, function })?;
        Ok(Operand::Void)
    }

    /// `croak_xs_usage`: croaks with how the function is used, the text of its parameters.
    pub fn croak_usage(&self, params: &[u8], frame: &Frame) -> Result<Operand, Halt>
        ensures { Does (rows.croak_usage params.now frame.now (world_of self.now)) result frame.now
            (world_of self.now) }
    {
        let text = usage_text(self.alloc, &frame.called, params)?;
        Err(Halt::Way(Abrupt::Croaks(text)))
    }

    // Lowers the count of a scalar. The immortals are passed over.
    fn lower(&mut self, n: Name) -> Result<(), Trap>
        ensures done { Sweeps (world.lower n (world_of self.old)) result (world_of self.new) }
        ensures temps { self.new.stacks ≡ self.old.stacks }
    {
        if 1 <= n && n <= 4 {
            return Ok(());
        }
        if self.heap.lower(n) {
            Ok(())
        } else {
            Err(self.gone(n))
        }
    }

    // Frees the temporaries above a height, the newest first.
    fn free_temps(&mut self, height: u64) -> Result<(), Trap>
        ensures { Sweeps (free_above height (world_of self.old)) result (world_of self.new) }
    {
        while self.stacks.temps.len() as u64 > height {
            let Some(n) = pop_top(&mut self.stacks.temps) else {
                return Ok(());
            };
            self.lower(n)?;
        }
        Ok(())
    }

    /// Frees the temporaries above a height, the newest first, and then cuts all stacks.
    pub fn sweep(&mut self, d: &Depths) -> Result<(), Trap>
        ensures { Sweeps (world.sweep d.now (world_of self.old)) result (world_of self.new) }
    {
        self.free_temps(d.temps)?;
        self.stacks.cut_to(d);
        Ok(())
    }
}

// The index of an item that is counted from the base, None where it is below 0 or further than one
// past the list.
fn index_of(base: u32, i: i128, len: usize) -> Option<usize>
    requires low { neg_ℤ (pos (2 ^ 63)) ≤ℤ i }
    requires high { i ≤ℤ pos (2 ^ 64 - 1) }
    ensures { result ≡ item_index base i len }
{
    if i < 0 {
        return None;
    }
    let at = i128::from(base) + i;
    if at <= len as i128 {
        Some(at as usize)
    } else {
        None
    }
}

// Writes an item at an index of the list, one past which it appends.
fn put_item(args: &mut Vec<Name>, at: usize, n: Name) -> Result<(), Stop>
    ensures { Puts args.old.items at n result args.new.items }
{
    if at < args.len() {
        args[at] = n;
        Ok(())
    } else if at > args.len() {
        Err(Stop::Trap(Trap::Bounds))
    } else if at < MOST_ITEMS {
        args.push(n).map_err(|_| Stop::Memory)
    } else {
        Err(Stop::Trap(Trap::Large))
    }
}

// The items from one index of the list up to another.
fn items_between(
    alloc: Global,
    args: &[Name],
    base: usize,
    top: usize,
) -> Result<Items<Name>, Memory>
    ensures { IfOk result (λ items. items ≡ take (top - base) (drop base args.now)) }
{
    if base >= args.len() || top <= base {
        return Ok(Items::new(alloc));
    }
    let after = &args[base..];
    let count = (top - base).min(after.len());
    let items = Vec::from_slice(alloc, &after[..count])?;
    Ok(Items::from_vec(items))
}

// The text of `croak_xs_usage`.
fn usage_text(alloc: Global, called: &Bytes, params: &[u8]) -> Result<Bytes, Memory>
    ensures { IfOk result (λ text. text ≡ rows.usage_text called.now params.now) }
{
    let mut text = Bytes::from_slice(alloc, b"Usage: ")?;
    text.append(called.as_slice())?;
    text.append(b"(")?;
    text.append(params)?;
    text.append(b")")?;
    Ok(text)
}
