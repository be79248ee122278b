//! Perl's stacks: arguments, marks, temporaries and scopes.
ghost use Rattle.std.specs.Prelude.{◌≡◌, ◌+◌, ◌++◌, ◌≤◌, ◌∷◌, [], MatchOption, OnOk, length, reverse, take, vec_len};
ghost use Rattle.xs_api.specs.Limits.{most_items};
ghost use Rattle.xs_api.specs.World.{cut_stack};

use std::alloc::Global;
use xs_base::Memory;
use xs_values::Name;

/// How many items the argument stack may have.
pub const MOST_ITEMS: usize = 1_000_000;

/// How high the stacks are.
#[derive(Clone, Copy, Debug, PartialEq, Eq)]
pub struct Depths {
    /// The top of the argument list.
    pub args: u32,
    pub marks: u64,
    pub temps: u64,
    pub scopes: u64,
}

/// Perl's stacks. The newest mark, temporary and scope stand last.
#[derive(Drop)]
pub struct Stacks {
    /// The argument list, which may be longer than its top.
    pub args: Vec<Name>,
    pub top: u32,
    pub marks: Vec<u32>,
    pub temps: Vec<Name>,
    /// Each open scope with the number of temporaries that it keeps.
    pub scopes: Vec<u64>,
    ghost short: { length args.items ≤ most_items },
}

impl Stacks {
    /// Empty stacks. This allocates nothing.
    pub fn new(alloc: Global) -> Stacks
        ensures args { result.args.items ≡ [] }
        ensures top { result.top ≡ 0 }
        ensures marks { result.marks.items ≡ [] }
        ensures temps { result.temps.items ≡ [] }
        ensures scopes { result.scopes.items ≡ [] }
    {
        Stacks {
            args: Vec::new(alloc),
            top: 0,
            marks: Vec::new(alloc),
            temps: Vec::new(alloc),
            scopes: Vec::new(alloc),
        }
    }

    /// How high the stacks are.
    pub fn depths(&self) -> Depths
        ensures { result
            ≡ record {
              args = self.now.top;
              marks = vec_len self.now.marks;
              temps = vec_len self.now.temps;
              scopes = vec_len self.now.scopes;
            } }
    {
        Depths {
            args: self.top,
            marks: self.marks.len() as u64,
            temps: self.temps.len() as u64,
            scopes: self.scopes.len() as u64,
        }
    }

    /// Pushes a mark, and arguments above it. The list is cut to the top first.
    pub fn push_call(&mut self, args: &[Name]) -> Result<(), Memory>
        requires { self.old.top + length args.now ≤ most_items }
        ensures args { OnOk result (self.new.args.items
            ≡ take self.old.top self.old.args.items ++ args.now) }
        ensures top { OnOk result (self.new.top ≡ self.old.top + length args.now) }
        ensures marks { OnOk result (reverse self.new.marks.items
            ≡ self.old.top ∷ reverse self.old.marks.items) }
        ensures temps { self.new.temps ≡ self.old.temps }
        ensures scopes { self.new.scopes ≡ self.old.scopes }
    {
        push_top(&mut self.marks, self.top)?;
        self.args.truncate(self.top as usize);
        self.args.extend_from_slice(args)?;
        self.top += args.len() as u32;
        Ok(())
    }

    /// Cuts the argument list to a new top.
    pub fn cut_args(&mut self, top: u32)
        ensures args { self.new.args.items ≡ take top self.old.args.items }
        ensures top { self.new.top ≡ top }
        ensures marks { self.new.marks ≡ self.old.marks }
        ensures temps { self.new.temps ≡ self.old.temps }
        ensures scopes { self.new.scopes ≡ self.old.scopes }
    {
        self.args.truncate(top as usize);
        self.top = top;
    }

    /// Cuts the argument list, the marks and the scopes.
    pub fn cut_to(&mut self, d: &Depths)
        ensures args { self.new.args.items ≡ take d.now.args self.old.args.items }
        ensures top { self.new.top ≡ d.now.args }
        ensures marks { reverse self.new.marks.items
            ≡ cut_stack d.now.marks (reverse self.old.marks.items) }
        ensures temps { self.new.temps ≡ self.old.temps }
        ensures scopes { reverse self.new.scopes.items
            ≡ cut_stack d.now.scopes (reverse self.old.scopes.items) }
    {
        self.cut_args(d.args);
        cut_top(&mut self.marks, d.marks);
        cut_top(&mut self.scopes, d.scopes);
    }
}

// Cuts a stack to a height.
fn cut_top<T: Drop>(stack: &mut Vec<T>, height: u64)
    ensures { reverse stack.new.items ≡ cut_stack height (reverse stack.old.items) }
{
    stack.truncate(height as usize);
}

/// Puts an item on top of a stack.
pub fn push_top<T: Drop>(stack: &mut Vec<T>, x: T) -> Result<(), Memory>
    ensures { OnOk result (reverse stack.new.items ≡ x ∷ reverse stack.old.items) }
{
    stack.push(x)?;
    Ok(())
}

/// Takes the item on top of a stack.
pub fn pop_top<T>(stack: &mut Vec<T>) -> Option<T>
    ensures top { MatchOption result ((reverse stack.old.items ≡ [])
        × (reverse stack.new.items ≡ [])) (λ x. reverse stack.old.items
        ≡ x ∷ reverse stack.new.items) }
    ensures len { MatchOption result (vec_len stack.new ≡ 0) (λ x. vec_len stack.new + 1
        ≡ vec_len stack.old) }
{
    stack.pop()
}
