//! A C text is run on the calls of a script, and each command is reported.
ghost use Rattle.std.specs.Prelude.{◌≡◌, ◌≢◌, ◌++◌, ◌∷◌, [], Err, IfOk, OnErr, OnOk, false, true};
ghost use Rattle.xs_call.specs.MachineTranscript.{boot_report, end_of, machine_transcript, most_turns, settled_report, show_cell, call_report, report_at_end};
ghost use Rattle.xs_call.specs.Reports.{IsReported, MakesArguments};
ghost use Rattle.xs_meaning.specs.Transcript.{Croaked, Returned, arg_line, arg_lines, calls_report, end_lines, in_front, item_line, item_lines, live_line};
ghost use Rattle.xs_machine.specs.Machine.{booted};
ghost use Rattle.xs_api.specs.declared.api.Stop.TheVariants as stop;
ghost use Rattle.xs_machine.specs.MachineViews.{MakesArgument, code_in, mach_of, pending_of};
ghost use Rattle.xs_api.specs.World.{live_of};
ghost use Rattle.xs_values.specs.declared.plain.Plain.TheVariants as plain;

use std::alloc::Global;
use xs_api::{Depths, Stop};
use xs_base::{Bytes, Items, Memory};
use xs_machine::{Machine, Outcome};
use xs_meaning::{
    CallCommand, arg_line, call_text, croaked_text, item_line, live_line, own_trap_text,
    returned_text, trapped_text,
};
use xs_script::value_text;
use xs_values::{Name, Plain};

/// How many turns the boot and each call may use.
pub const TURNS: u32 = 1_000_000;

// The text of a scalar's value.
fn shown(alloc: Global, machine: &Machine, name: Name) -> Result<Bytes, Memory>
    ensures { IfOk result (λ text. text ≡ show_cell (mach_of machine.now).state.store.cells name) }
{
    match machine.plain(name) {
        None => Bytes::from_slice(alloc, b"gone"),
        Some(value) => value_text(alloc, value),
    }
}

// A line for each item.
#[tactic(auto, using(std::proofs::Common::append_assoc))]
fn write_items(
    alloc: Global,
    machine: &Machine,
    args: &[Name],
    items: &[Name],
) -> Result<Bytes, Memory>
    ensures { IfOk result (λ text. text
        ≡ item_lines (show_cell (mach_of machine.now).state.store.cells) args.now 0 items.now) }
{
    let mut text = Bytes::new(alloc);
    let mut place = 0;
    for item in items {
        let line = write_item(alloc, machine, args, place, *item)?;
        text.append(line.as_slice())?;
        place += 1;
    }
    Ok(text)
}

#[tactic(auto, unfolding(xs_meaning::specs::Transcript::item_line))]
fn write_item(
    alloc: Global,
    machine: &Machine,
    args: &[Name],
    place: usize,
    item: Name,
) -> Result<Bytes, Memory>
    ensures { IfOk result (λ line. line
        ≡ item_line (show_cell (mach_of machine.now).state.store.cells) args.now place item) }
{
    let value = shown(alloc, machine, item)?;
    item_line(alloc, &value, args, place, item)
}

// A line for each argument.
#[tactic(auto, using(std::proofs::Common::append_assoc))]
fn write_args(alloc: Global, machine: &Machine, args: &[Name]) -> Result<Bytes, Memory>
    ensures { IfOk result (λ text. text
        ≡ arg_lines (show_cell (mach_of machine.now).state.store.cells) 0 args.now) }
{
    let mut text = Bytes::new(alloc);
    let mut place = 0;
    for arg in args {
        let line = write_arg(alloc, machine, place, *arg)?;
        text.append(line.as_slice())?;
        place += 1;
    }
    Ok(text)
}

#[tactic(auto, unfolding(xs_meaning::specs::Transcript::arg_line))]
fn write_arg(alloc: Global, machine: &Machine, place: usize, arg: Name) -> Result<Bytes, Memory>
    ensures { IfOk result (λ line. line
        ≡ arg_line (show_cell (mach_of machine.now).state.store.cells) place arg) }
{
    let value = shown(alloc, machine, arg)?;
    arg_line(alloc, &value, place)
}

// One argument, a new temporary.
fn int_argument(machine: &mut Machine, value: i64) -> Result<Name, Stop>
    ensures made { MakesArgument (plain.Int value) (mach_of machine.old) result
        (mach_of machine.new) }
    ensures code { code_in machine.new ≡ code_in machine.old }
{
    machine.make_argument(Plain::Int(value))
}

fn add_name(names: &mut Items<Name>, name: Name) -> Result<(), Stop>
    ensures added { OnOk result (names.new ≡ names.old ++ name ∷ []) }
    ensures memory { OnErr result (result ≡ Err stop.Memory) }
{
    names.push(name).map_err(|_| Stop::Memory)
}

// The scalars of a call's arguments, each a new temporary.
fn make_arguments(alloc: Global, machine: &mut Machine, values: &[i64]) -> Result<Items<Name>, Stop>
    ensures made { MakesArguments values.now (mach_of machine.old) result (mach_of machine.new) }
    ensures code { code_in machine.new ≡ code_in machine.old }
{
    let mut names = Items::new(alloc);
    for value in values {
        match int_argument(machine, *value) {
            Ok(name) => add_name(&mut names, name)?,
            Err(stop) => return Err(stop),
        }
    }
    Ok(names)
}

// What is reported of a command, and whether the script goes on after it.
#[derive(Debug, Drop)]
struct Reported {
    text: Bytes,
    goes_on: bool,
}

// The temporaries of a call are freed, and what lives is reported.
fn report_settled(alloc: Global, machine: &mut Machine) -> Result<Reported, Memory>
    requires { pending_of machine.old ≡ [] }
    ensures reported { IfOk result (λ t. IsReported (settled_report (mach_of machine.old)) t
        (mach_of machine.new)) }
    ensures idle { pending_of machine.new ≡ [] }
    ensures code { code_in machine.new ≡ code_in machine.old }
{
    let depths = machine.depths();
    match machine.settle() {
        Outcome::Returned(_) => report_live(alloc, machine, depths),
        Outcome::Croaked(_) => report_live(alloc, machine, depths),
        Outcome::Trapped(trap) => Ok(Reported {
            text: own_trap_text(alloc, trap)?,
            goes_on: false,
        }),
        Outcome::Spent => Ok(Reported {
            text: Bytes::new(alloc),
            goes_on: false,
        }),
        Outcome::Memory => Err(Memory),
    }
}

fn report_live(alloc: Global, machine: &Machine, depths: Depths) -> Result<Reported, Memory>
    ensures { IfOk result
        (λ t. (t.text
        ≡ live_line (live_of (mach_of machine.now).state.store.cells) depths.marks depths.scopes)
        × (t.goes_on ≡ true)) }
{
    Ok(Reported {
        text: live_line(alloc, machine.live(), depths.marks, depths.scopes)?,
        goes_on: true,
    })
}

// The lines in front, and then what is reported when the temporaries are freed.
fn report_after(alloc: Global, machine: &mut Machine, front: Bytes) -> Result<Reported, Memory>
    requires { pending_of machine.old ≡ [] }
    ensures reported { IfOk result
        (λ t. IsReported (in_front front (settled_report (mach_of machine.old))) t
        (mach_of machine.new)) }
    ensures idle { pending_of machine.new ≡ [] }
    ensures code { code_in machine.new ≡ code_in machine.old }
{
    let mut text = front;
    let rest = report_settled(alloc, machine)?;
    text.append(rest.text.as_slice())?;
    Ok(Reported {
        text,
        goes_on: rest.goes_on,
    })
}

// The lines of a call that returned.
#[tactic(auto, using(std::proofs::Common::append_assoc))]
fn write_returned(
    alloc: Global,
    machine: &Machine,
    head: Bytes,
    args: &[Name],
    items: &[Name],
) -> Result<Bytes, Memory>
    ensures { IfOk result (λ text. text
        ≡ head ++ end_lines (show_cell (mach_of machine.now).state.store.cells) args.now
        (Returned items.now)) }
{
    let mut text = head;
    text.append(returned_text(alloc, items.len())?.as_slice())?;
    text.append(write_items(alloc, machine, args, items)?.as_slice())?;
    text.append(write_args(alloc, machine, args)?.as_slice())?;
    Ok(text)
}

// The lines of a call that croaked.
#[tactic(auto, using(std::proofs::Common::append_assoc))]
fn write_croaked(
    alloc: Global,
    machine: &Machine,
    head: Bytes,
    args: &[Name],
    croak: &Bytes,
) -> Result<Bytes, Memory>
    ensures { IfOk result (λ text. text
        ≡ head ++ end_lines (show_cell (mach_of machine.now).state.store.cells) args.now
        (Croaked croak.now)) }
{
    let mut text = head;
    text.append(croaked_text(alloc, croak)?.as_slice())?;
    text.append(write_args(alloc, machine, args)?.as_slice())?;
    Ok(text)
}

// The last line of a script that a call ended.
fn report_last(head: Bytes, line: &[u8]) -> Result<Reported, Memory>
    ensures { IfOk result (λ t. (t.text ≡ head ++ line.now) × (t.goes_on ≡ false)) }
{
    let mut text = head;
    text.append(line)?;
    Ok(Reported {
        text,
        goes_on: false,
    })
}

// How a call ended, with its arguments.
#[tactic(auto, unfolding(xs_meaning::specs::Transcript::spent_text))]
fn report_end(
    alloc: Global,
    machine: &mut Machine,
    head: Bytes,
    args: &[Name],
    outcome: Outcome,
) -> Result<Reported, Memory>
    requires { pending_of machine.old ≡ [] }
    ensures reported { IfOk result
        (λ t. IsReported (report_at_end head args.now (end_of outcome) (mach_of machine.old)) t
        (mach_of machine.new)) }
    ensures some { OnOk result (outcome ≢ Outcome.Memory) }
    ensures idle { pending_of machine.new ≡ [] }
    ensures code { code_in machine.new ≡ code_in machine.old }
{
    match outcome {
        Outcome::Returned(items) => {
            let front = write_returned(alloc, machine, head, args, items.as_slice())?;
            report_after(alloc, machine, front)
        }
        Outcome::Croaked(text) => {
            let front = write_croaked(alloc, machine, head, args, &text)?;
            report_after(alloc, machine, front)
        }
        Outcome::Trapped(trap) => report_last(head, trapped_text(alloc, trap)?.as_slice()),
        Outcome::Spent => report_last(head, b" spent\n"),
        Outcome::Memory => Err(Memory),
    }
}

// A call: its arguments are made, the function is run, and its end is reported.
fn report_call(alloc: Global, machine: &mut Machine, c: &CallCommand) -> Result<Reported, Memory>
    requires { pending_of machine.old ≡ [] }
    ensures reported { IfOk result
        (λ t. IsReported (call_report (code_in machine.old) (mach_of machine.old) c.now) t
        (mach_of machine.new)) }
    ensures idle { OnOk result (pending_of machine.new ≡ []) }
    ensures code { code_in machine.new ≡ code_in machine.old }
{
    match make_arguments(alloc, machine, c.args.as_slice()) {
        Ok(names) => {
            let outcome = machine.call(&c.sub, names.as_slice(), TURNS);
            let head = call_text(alloc, c)?;
            report_end(alloc, machine, head, names.as_slice(), outcome)
        }
        Err(Stop::Trap(trap)) => Ok(Reported {
            text: own_trap_text(alloc, trap)?,
            goes_on: false,
        }),
        Err(Stop::Memory) => Err(Memory),
    }
}

// The calls of a script, up to the one that ends it.
#[tactic(auto, using(std::proofs::Common::append_assoc))]
fn report_calls(
    alloc: Global,
    machine: &mut Machine,
    text: &mut Bytes,
    calls: &[CallCommand],
) -> Result<(), Memory>
    requires { pending_of machine.old ≡ [] }
    ensures reported { OnOk result (text.new
        ≡ text.old ++ calls_report (call_report (code_in machine.old))
        (mach_of machine.old) calls.now) }
{
    for call in calls {
        let reported = report_call(alloc, machine, call)?;
        text.append(reported.text.as_slice())?;
        if !reported.goes_on {
            return Ok(());
        }
    }
    Ok(())
}

// The boot function is run and reported.
#[tactic(auto, unfolding(xs_meaning::specs::Transcript::spent_text))]
fn report_boot(alloc: Global, machine: &mut Machine) -> Result<Reported, Memory>
    requires { pending_of machine.old ≡ [] }
    ensures reported { IfOk result
        (λ t. IsReported
        (boot_report (end_of
        (booted (code_in machine.old) most_turns (mach_of machine.old)).stopped)
        (booted (code_in machine.old) most_turns (mach_of machine.old))) t (mach_of machine.new)) }
    ensures idle { OnOk result (pending_of machine.new ≡ []) }
    ensures code { code_in machine.new ≡ code_in machine.old }
{
    let boot = Bytes::from_slice(alloc, b"boot")?;
    match machine.boot(TURNS) {
        Outcome::Returned(_) => {
            let front = Bytes::from_slice(alloc, b"boot returned\n")?;
            report_after(alloc, machine, front)
        }
        Outcome::Croaked(text) => {
            let mut line = croaked_text(alloc, &text)?;
            let settled = report_settled(alloc, machine)?;
            line.append(settled.text.as_slice())?;
            report_last(boot, line.as_slice())
        }
        Outcome::Trapped(trap) => report_last(boot, trapped_text(alloc, trap)?.as_slice()),
        Outcome::Spent => report_last(boot, b" spent\n"),
        Outcome::Memory => Err(Memory),
    }
}

/// The transcript of a machine that runs nothing yet: the boot function runs first, and then each
/// call.
#[tactic(auto, unfolding(crate::specs::MachineTranscript::machine_transcript))]
pub fn transcript(
    alloc: Global,
    machine: &mut Machine,
    calls: &[CallCommand],
) -> Result<Bytes, Memory>
    requires { pending_of machine.old ≡ [] }
    ensures { IfOk result (λ text. text
        ≡ machine_transcript (code_in machine.old) (mach_of machine.old) calls.now) }
{
    let boot = report_boot(alloc, machine)?;
    let mut text = boot.text;
    if boot.goes_on {
        report_calls(alloc, machine, &mut text, calls)?;
    }
    Ok(text)
}
