//! The machine, which works through a list of pending work one step at a time.
ghost use Rattle.std.specs.Option.{option_copied};
ghost use Rattle.std.specs.Prelude.{◌≡◌, ◌≢◌, ◌+◌, ◌≤◌, [], ◌∷◌, IfOk, IsErr, length, Ok, OnErr, OnOk, Some, false, reverse};
ghost use Rattle.xs_ctree.specs.Functions.{code_of};
ghost use Rattle.xs_api.specs.Heaps.{value_at};
ghost use Rattle.xs_machine.specs.Machine as machine;
ghost use Rattle.xs_api.specs.Limits.{most_items};
ghost use Rattle.xs_machine.specs.Dispatch.{counted_rows};
ghost use Rattle.xs_machine.specs.MachineState as state;
ghost use Rattle.xs_machine.specs.MachineViews.{IsFailed, MakesArgument, code_in, mach_of, operands_of, pending_of, state_of, task_of};
ghost use Rattle.xs_api.specs.World as world;
ghost use Rattle.xs_api.specs.World.{depths_of, live_of};

use crate::work::act_on;
use std::alloc::Global;
use xs_api::{
    Abrupt, Depths, Frame, Heap, MOST_ITEMS, Operand, Perl, Registered, Stacks, Stop, pop_top,
    push_top,
};
use xs_base::{Bytes, Items, Memory};
use xs_ctree::{Range, Typed, ValueType};
use xs_perlapi::Row;
use xs_values::{Name, Op, Plain, Trap, UnOp};

/// How the work that ended last came to its end.
#[derive(Debug, Drop)]
pub enum Outcome {
    /// The items that were returned.
    Returned(Items<Name>),
    /// A croak that nothing caught, with its text.
    Croaked(Bytes),
    Trapped(Trap),
    /// A turn was due and none was left.
    Spent,
    Memory,
}

/// What a step answers.
#[derive(Clone, Copy, Debug, PartialEq, Eq)]
pub enum Step {
    Went,
    /// No work was pending.
    Ended,
}

/// An operation on one value.
#[derive(Clone, Copy, Debug)]
pub enum Alone {
    /// What a function gave is read.
    Read,
    /// `!`
    Not,
    Sign(UnOp),
    /// Whether an operand of `&&` or `||` holds, as a number.
    Truth,
}

/// A piece of pending work. Expressions and statements are named by their nodes.
#[derive(Clone, Copy, Debug)]
pub enum Task {
    DoExpr(u32),
    /// Operands of a row, from left to right: a range of the code's parts.
    DoExprs(Range),
    DoStmt(u32),
    /// Statements of a block: a range of the code's parts.
    DoStmts(Range),
    SetVar(u32, ValueType),
    /// An operation on the topmost operand.
    OnTop(Alone),
    Operate(Op),
    ToType(ValueType),
    /// A row of Perl's API, and the number of its operands.
    DoRow(Row, u32),
    Branch(u32, u32),
    /// The second operand of `&&`, where the first holds.
    AndThen(u32),
    /// The second operand of `||`, where the first does not hold.
    OrThen(u32),
    /// One of the two expressions of `?:`.
    Pick(u32, u32),
    DropTop,
    /// The entry of a function, None where no function has the name.
    Enter(Option<u32>),
    /// The end of an XS function, with the heights of the stacks at its entry.
    Leave(Depths),
}

/// The machine.
#[derive(Drop)]
pub struct Machine {
    pub(crate) alloc: Global,
    pub(crate) typed: Typed,
    pub(crate) perl: Perl,
    pub(crate) frame: Frame,
    pub(crate) vars: Vec<Operand>,
    pub(crate) operands: Vec<Operand>,
    /// What is done next stands last.
    pub(crate) pending: Vec<Task>,
    pub(crate) turns: u32,
    pub(crate) stopped: Outcome,
}

impl Machine {
    // Ends all work.
    pub(crate) fn halt(&mut self, outcome: Outcome)
        ensures halts { mach_of self.new ≡ machine.halt outcome (state_of self.old) }
        ensures typed { self.new.typed ≡ self.old.typed }
    {
        self.pending.clear();
        self.operands.clear();
        self.stopped = outcome;
    }

    // Ends all work where memory runs out.
    fn fail(&mut self) -> Memory
        ensures failed { IsFailed (mach_of self.new) }
        ensures typed { self.new.typed ≡ self.old.typed }
    {
        self.halt(Outcome::Memory);
        Memory
    }

    // Leaves an XS function: a croak frees the temporaries that were made since its entry and cuts
    // the stacks.
    pub(crate) fn leave(&mut self, abrupt: Abrupt, d: Depths)
        ensures leaves { mach_of self.new
            ≡ machine.at_leave counted_rows abrupt d (state_of self.old) }
        ensures typed { self.new.typed ≡ self.old.typed }
    {
        match abrupt {
            Abrupt::Croaks(text) => self.leave_by_croak(text, d),
            other => self.halt(outcome_of(other)),
        }
    }

    fn leave_by_croak(&mut self, text: Bytes, d: Depths)
        ensures leaves { mach_of self.new
            ≡ machine.at_leave counted_rows (Abrupt.Croaks text) d (state_of self.old) }
        ensures typed { self.new.typed ≡ self.old.typed }
    {
        match self.perl.sweep(&d) {
            Ok(()) => self.halt(Outcome::Croaked(text)),
            Err(trap) => self.halt(Outcome::Trapped(trap)),
        }
    }

    // Drops pending work up to where the exit leads.
    pub(crate) fn unwind(&mut self, abrupt: Abrupt)
        ensures unwinds { mach_of self.new
            ≡ machine.unwind counted_rows abrupt (pending_of self.old) (state_of self.old) }
        ensures typed { self.new.typed ≡ self.old.typed }
    {
        while let Some(task) = pop_top(&mut self.pending) {
            if let Task::Leave(d) = task {
                return self.leave(abrupt, d);
            }
        }
        self.halt(outcome_of(abrupt));
    }

    // Puts an operand on top.
    pub(crate) fn push(&mut self, v: Operand) -> Result<(), Memory>
        ensures pushed { OnOk result (mach_of self.new
            ≡ record (mach_of self.old) { operands = v ∷ operands_of self.old }) }
        ensures typed { self.new.typed ≡ self.old.typed }
    {
        push_top(&mut self.operands, v)
    }

    // Makes a piece of work the next one.
    pub(crate) fn then(&mut self, task: Task) -> Result<(), Memory>
        ensures pushed { OnOk result (mach_of self.new
            ≡ record (mach_of self.old) {
              pending = task_of self.old.typed task
                  ∷ pending_of self.old;
            }) }
        ensures typed { self.new.typed ≡ self.old.typed }
    {
        push_top(&mut self.pending, task)
    }

    // Makes two pieces of work the next ones.
    pub(crate) fn then_two(&mut self, first: Task, second: Task) -> Result<(), Memory>
        ensures pushed { OnOk result (mach_of self.new
            ≡ record (mach_of self.old) {
              pending = task_of self.old.typed first
                  ∷ task_of self.old.typed second ∷ pending_of self.old;
            }) }
        ensures typed { self.new.typed ≡ self.old.typed }
    {
        self.then(second)?;
        self.then(first)
    }
}

impl Machine {
    /// A machine for a file, with the immortals alone and no name registered.
    pub fn load(alloc: Global, typed: Typed) -> Result<Machine, Memory>
        ensures loads { IfOk result (λ m. mach_of m ≡ machine.loaded) }
        ensures code { IfOk result (λ m. code_in m ≡ code_of typed) }
    {
        let heap = Heap::new(alloc)?;
        Ok(Machine {
            alloc,
            typed,
            perl: Perl {
                alloc,
                heap,
                stacks: Stacks::new(alloc),
                names: Vec::new(alloc),
            },
            frame: frame_of(Bytes::new(alloc)),
            vars: Vec::new(alloc),
            operands: Vec::new(alloc),
            pending: Vec::new(alloc),
            turns: 0,
            stopped: Outcome::Returned(Items::new(alloc)),
        })
    }

    /// How many scalars live that are counted.
    pub fn live(&self) -> u32
        ensures { result ≡ live_of (mach_of self.now).state.store.cells }
    {
        self.perl.heap.live()
    }

    /// How high the stacks are.
    pub fn depths(&self) -> Depths
        ensures { result ≡ depths_of (mach_of self.now).state.store }
    {
        self.perl.stacks.depths()
    }

    /// The value of a scalar, None where it is gone.
    pub fn plain(&self, n: Name) -> Option<&Plain>
        ensures { option_copied result ≡ value_at n (mach_of self.now).state.store.cells }
    {
        self.perl.heap.value(n)
    }

    /// A new scalar with a value that is a temporary, for an argument of a call.
    pub fn make_argument(&mut self, value: Plain) -> Result<Name, Stop>
        ensures made { MakesArgument value (mach_of self.old) result (mach_of self.new) }
        ensures code { code_in self.new ≡ code_in self.old }
    {
        self.perl.make_temporary(value)
    }

    // One step. For running out of memory it ends all work.
    fn advance(&mut self) -> Result<Step, Memory>
        ensures steps { OnOk result (mach_of self.new
            ≡ machine.step_of (code_in self.old) (mach_of self.old)) }
        ensures ended { IfOk result (λ s. s ≡ Step.Ended
            → (pending_of self.old ≡ []) × (mach_of self.new ≡ mach_of self.old)) }
        ensures went { result ≢ Ok Step.Ended → pending_of self.old ≢ [] }
        ensures failed { OnErr result (((mach_of self.new).stopped ≡ Outcome.Memory)
            × (pending_of self.new ≡ [])) }
        ensures code { code_in self.new ≡ code_in self.old }
    {
        match pop_top(&mut self.pending) {
            None => Ok(Step::Ended),
            Some(task) => {
                self.stopped = Outcome::Returned(Items::new(self.alloc));
                match act_on(self, task) {
                    Ok(()) => Ok(Step::Went),
                    Err(Memory) => Err(self.fail()),
                }
            }
        }
    }

    /// One step. Where no work is pending it answers Ended and changes nothing.
    pub fn step(&mut self) -> Step
        ensures steps { (mach_of self.new).stopped ≢ Outcome.Memory
            → mach_of self.new ≡ machine.step_of (code_in self.old) (mach_of self.old) }
        ensures ended { result ≡ Step.Ended
            → (pending_of self.old ≡ []) × (mach_of self.new ≡ mach_of self.old) }
        ensures went { result ≡ Step.Went → pending_of self.old ≢ [] }
        ensures code { code_in self.new ≡ code_in self.old }
    {
        match self.advance() {
            Ok(Step::Ended) => Step::Ended,
            Ok(Step::Went) => Step::Went,
            Err(Memory) => Step::Went,
        }
    }

    // Steps until no work is pending.
    fn run_to_end(&mut self)
        ensures runs { (mach_of self.new).stopped ≢ Outcome.Memory
            → mach_of self.new ≡ machine.run (code_in self.old) (mach_of self.old) }
        ensures idle { pending_of self.new ≡ [] }
        ensures code { code_in self.new ≡ code_in self.old }
    {
        loop {
            match self.advance() {
                Ok(Step::Went) => {}
                Ok(Step::Ended) => return,
                Err(Memory) => return,
            }
        }
    }

    /// Makes the entry of the function that is registered under a name the pending work, with these
    /// arguments and so many turns. After a trap or a spent run it starts nothing. More items than
    /// the argument list may have trap Large.
    pub fn begin(&mut self, sub: &Bytes, args: &[Name], turns: u32) -> Result<(), Memory>
        requires { pending_of self.old ≡ [] }
        ensures begins { OnOk result (mach_of self.new
            ≡ machine.begun sub.now args.now turns (mach_of self.old)) }
        ensures failed { OnErr result (IsFailed (mach_of self.new)) }
        ensures after { (mach_of self.old).stopped ≡ Outcome.Memory → IsErr result }
        ensures code { code_in self.new ≡ code_in self.old }
    {
        let function = registered(&self.perl.names, sub);
        self.begin_at(sub, function, args, turns)
    }

    // Makes the entry of a function under a name the pending work.
    fn begin_at(
        &mut self,
        sub: &Bytes,
        function: Option<u32>,
        args: &[Name],
        turns: u32,
    ) -> Result<(), Memory>
        requires { pending_of self.old ≡ [] }
        ensures begins { OnOk result (mach_of self.new
            ≡ machine.begun_at sub.now function args.now turns (mach_of self.old)) }
        ensures failed { OnErr result (IsFailed (mach_of self.new)) }
        ensures after { (mach_of self.old).stopped ≡ Outcome.Memory → IsErr result }
        ensures code { code_in self.new ≡ code_in self.old }
    {
        match &self.stopped {
            Outcome::Memory => Err(Memory),
            Outcome::Trapped(_) | Outcome::Spent => Ok(()),
            Outcome::Returned(_) | Outcome::Croaked(_) => self.begin_entry(
                sub, function, args, turns,
            ),
        }
    }

    fn begin_entry(
        &mut self,
        sub: &Bytes,
        function: Option<u32>,
        args: &[Name],
        turns: u32,
    ) -> Result<(), Memory>
        requires idle { pending_of self.old ≡ [] }
        requires over { machine.is_over (mach_of self.old).stopped ≡ false }
        ensures begins { OnOk result (mach_of self.new
            ≡ machine.begun_at sub.now function args.now turns (mach_of self.old)) }
        ensures failed { OnErr result (IsFailed (mach_of self.new)) }
        ensures code { code_in self.new ≡ code_in self.old }
    {
        if args.len() > MOST_ITEMS || self.perl.stacks.top as usize + args.len() > MOST_ITEMS {
            self.halt(Outcome::Trapped(Trap::Large));
            return Ok(());
        }
        match self.push_entry(sub, function, args, turns) {
            Ok(()) => Ok(()),
            Err(Memory) => Err(self.fail()),
        }
    }

    fn push_entry(
        &mut self,
        sub: &Bytes,
        function: Option<u32>,
        args: &[Name],
        turns: u32,
    ) -> Result<(), Memory>
        requires { (mach_of self.old).state.store.top + length args.now ≤ most_items }
        ensures begins { OnOk result (mach_of self.new
            ≡ machine.begun_with sub.now function args.now turns (state_of self.old)) }
        ensures code { code_in self.new ≡ code_in self.old }
    {
        let depths = self.perl.stacks.depths();
        let called = sub.copy(self.alloc)?;
        self.perl.stacks.push_call(args)?;
        self.frame = frame_of(called);
        self.vars.clear();
        self.operands.clear();
        self.pending.clear();
        self.turns = turns;
        self.stopped = Outcome::Returned(Items::new(self.alloc));
        self.then_two(Task::Enter(function), Task::Leave(depths))
    }

    /// How the work that ended last came to its end; before any work, that nothing was returned.
    pub fn outcome(&mut self) -> Outcome
        requires { pending_of self.old ≡ [] }
        ensures answer { result ≢ Outcome.Memory
            → (result ≡ (mach_of self.old).stopped) × (mach_of self.new ≡ mach_of self.old) }
        ensures after { (mach_of self.old).stopped ≡ Outcome.Memory → result ≡ Outcome.Memory }
        ensures failed { result ≡ Outcome.Memory → IsFailed (mach_of self.new) }
        ensures idle { pending_of self.new ≡ [] }
        ensures code { code_in self.new ≡ code_in self.old }
    {
        match copy_outcome(self.alloc, &self.stopped) {
            Ok(outcome) => outcome,
            Err(Memory) => {
                self.fail();
                Outcome::Memory
            }
        }
    }

    /// Calls the function that is registered under a name, in so many turns at most. A name that no
    /// function has croaks.
    pub fn call(&mut self, sub: &Bytes, args: &[Name], turns: u32) -> Outcome
        requires { pending_of self.old ≡ [] }
        ensures called { result ≢ Outcome.Memory
            → (mach_of self.new
            ≡ machine.called (code_in self.old) sub.now args.now turns (mach_of self.old))
            × (result ≡ (mach_of self.new).stopped) }
        ensures after { (mach_of self.old).stopped ≡ Outcome.Memory → result ≡ Outcome.Memory }
        ensures failed { result ≡ Outcome.Memory → IsFailed (mach_of self.new) }
        ensures idle { pending_of self.new ≡ [] }
        ensures code { code_in self.new ≡ code_in self.old }
    {
        let function = registered(&self.perl.names, sub);
        self.call_at(sub, function, args, turns)
    }

    /// Calls the boot function under its own name, without arguments and in so many turns at most.
    pub fn boot(&mut self, turns: u32) -> Outcome
        requires { pending_of self.old ≡ [] }
        ensures booted { result ≢ Outcome.Memory
            → (mach_of self.new ≡ machine.booted (code_in self.old) turns (mach_of self.old))
            × (result ≡ (mach_of self.new).stopped) }
        ensures after { (mach_of self.old).stopped ≡ Outcome.Memory → result ≡ Outcome.Memory }
        ensures failed { result ≡ Outcome.Memory → IsFailed (mach_of self.new) }
        ensures idle { pending_of self.new ≡ [] }
        ensures code { code_in self.new ≡ code_in self.old }
    {
        let function = self.typed.boot();
        let Ok(name) = self.typed.function_name(self.alloc, function) else {
            self.fail();
            return Outcome::Memory;
        };
        self.call_at(&name, function, &[], turns)
    }

    // Calls a function under a name, in so many turns at most.
    fn call_at(&mut self, sub: &Bytes, function: Option<u32>, args: &[Name], turns: u32) -> Outcome
        requires { pending_of self.old ≡ [] }
        ensures called { result ≢ Outcome.Memory
            → (mach_of self.new
            ≡ machine.run (code_in self.old) (machine.begun_at sub.now function args.now turns
            (mach_of self.old))) × (result ≡ (mach_of self.new).stopped) }
        ensures after { (mach_of self.old).stopped ≡ Outcome.Memory → result ≡ Outcome.Memory }
        ensures failed { result ≡ Outcome.Memory → IsFailed (mach_of self.new) }
        ensures idle { pending_of self.new ≡ [] }
        ensures code { code_in self.new ≡ code_in self.old }
    {
        match self.begin_at(sub, function, args, turns) {
            Ok(()) => self.finish(),
            Err(Memory) => Outcome::Memory,
        }
    }

    // Runs what is pending to its end.
    fn finish(&mut self) -> Outcome
        ensures runs { result ≢ Outcome.Memory
            → (mach_of self.new ≡ machine.run (code_in self.old) (mach_of self.old))
            × (result ≡ (mach_of self.new).stopped) }
        ensures failed { result ≡ Outcome.Memory → IsFailed (mach_of self.new) }
        ensures idle { pending_of self.new ≡ [] }
        ensures code { code_in self.new ≡ code_in self.old }
    {
        self.run_to_end();
        self.outcome()
    }

    /// Frees the temporaries of the last call, cuts all stacks to the runner's, and answers that
    /// nothing was returned. After a trap or a spent run it answers the same again, and does
    /// nothing.
    pub fn settle(&mut self) -> Outcome
        requires { pending_of self.old ≡ [] }
        ensures settled { mach_of self.new ≡ machine.settled (mach_of self.old) }
        ensures answer { result ≡ machine.settle_answer (mach_of self.old) }
        ensures after { (mach_of self.old).stopped ≡ Outcome.Memory → result ≡ Outcome.Memory }
        ensures failed { result ≡ Outcome.Memory → IsFailed (mach_of self.new) }
        ensures idle { pending_of self.new ≡ [] }
        ensures code { code_in self.new ≡ code_in self.old }
    {
        match &self.stopped {
            Outcome::Trapped(trap) => Outcome::Trapped(*trap),
            Outcome::Spent => Outcome::Spent,
            Outcome::Memory => Outcome::Memory,
            Outcome::Returned(_) | Outcome::Croaked(_) => self.settle_stacks(),
        }
    }

    fn settle_stacks(&mut self) -> Outcome
        requires { machine.is_over (mach_of self.old).stopped ≡ false }
        ensures settled { mach_of self.new ≡ machine.settled (mach_of self.old) }
        ensures answer { result ≡ machine.settle_answer (mach_of self.old) }
        ensures code { code_in self.new ≡ code_in self.old }
    {
        let runner = Depths {
            args: 0,
            marks: 0,
            temps: 0,
            scopes: 0,
        };
        match self.perl.sweep(&runner) {
            Ok(()) => Outcome::Returned(Items::new(self.alloc)),
            Err(trap) => {
                self.stopped = Outcome::Trapped(trap);
                Outcome::Trapped(trap)
            }
        }
    }
}

// The frame of a function that is called under a name, before its entry.
fn frame_of(called: Bytes) -> Frame
    ensures { result ≡ machine.frame_of called }
{
    Frame {
        called,
        base: 0,
        items: 0,
    }
}

fn copy_outcome(alloc: Global, outcome: &Outcome) -> Result<Outcome, Memory>
    ensures copied { IfOk result (λ o. o ≡ outcome.now) }
    ensures after { IfOk result (λ o. o ≢ Outcome.Memory) }
{
    match outcome {
        Outcome::Returned(items) => {
            let items = Vec::from_slice(alloc, items.as_slice())?;
            Ok(Outcome::Returned(Items::from_vec(items)))
        }
        Outcome::Croaked(text) => Ok(Outcome::Croaked(text.copy(alloc)?)),
        Outcome::Trapped(trap) => Ok(Outcome::Trapped(*trap)),
        Outcome::Spent => Ok(Outcome::Spent),
        Outcome::Memory => Err(Memory),
    }
}

// The number of the function that a name is registered for last.
fn registered(names: &Vec<Registered>, name: &Bytes) -> Option<u32>
    ensures { result ≡ world.registered name.now (reverse names.now.items) }
{
    let mut at = names.len();
    while at > 0 {
        at -= 1;
        let r = &names[at];
        if r.name == *name {
            return Some(r.function);
        }
    }
    None
}

fn outcome_of(abrupt: Abrupt) -> Outcome
    ensures { result ≡ machine.outcome_of abrupt }
{
    match abrupt {
        Abrupt::Returns(names) => Outcome::Returned(names),
        Abrupt::Croaks(text) => Outcome::Croaked(text),
        Abrupt::Traps(trap) => Outcome::Trapped(trap),
        Abrupt::Spent => Outcome::Spent,
    }
}
