//! The lines of a transcript.
ghost use Rattle.std.specs.Prelude.{◌≡◌, ◌==◌, IfOk, position};
ghost use Rattle.xs_meaning.specs.Transcript.{alias_text, arg_line, call_text, croaked_text, item_line, live_line, own_trap_text, returned_text, trap_name, trapped_text};

use crate::call_command::CallCommand;
use std::alloc::Global;
use xs_base::{Bytes, Memory, decimal_text, together};
use xs_script::quoted;
use xs_values::{Name, Trap};

/// `call LINE NAME`
#[tactic(auto, using(std::proofs::Common::append_assoc), unfolding(crate::specs::Transcript::call_text))]
pub fn call_text(alloc: Global, c: &CallCommand) -> Result<Bytes, Memory>
    ensures { IfOk result (λ text. text ≡ call_text c.now) }
{
    let mut text = Bytes::from_slice(alloc, b"call ")?;
    text.append_number(alloc, u64::from(c.line))?;
    text.append(b" ")?;
    text.append(c.sub.as_slice())?;
    Ok(text)
}

/// ` returned N`
#[tactic(auto, using(std::proofs::Common::append_assoc), unfolding(crate::specs::Transcript::returned_text))]
pub fn returned_text(alloc: Global, items: usize) -> Result<Bytes, Memory>
    ensures { IfOk result (λ text. text ≡ returned_text items) }
{
    let mut text = Bytes::from_slice(alloc, b" returned ")?;
    text.append_number(alloc, items as u64)?;
    text.append(b"\n")?;
    Ok(text)
}

/// ` croaked TEXT`
#[tactic(auto, using(std::proofs::Common::append_assoc), unfolding(crate::specs::Transcript::croaked_text))]
pub fn croaked_text(alloc: Global, text: &Bytes) -> Result<Bytes, Memory>
    ensures { IfOk result (λ line. line ≡ croaked_text text.now) }
{
    let mut line = Bytes::from_slice(alloc, b" croaked ")?;
    line.append(quoted(alloc, text.as_slice())?.as_slice())?;
    line.append(b"\n")?;
    Ok(line)
}

/// ` trapped KIND`
#[tactic(auto, unfolding(crate::specs::Transcript::trapped_text))]
pub fn trapped_text(alloc: Global, trap: Trap) -> Result<Bytes, Memory>
    ensures { IfOk result (λ line. line ≡ trapped_text trap) }
{
    let mut line = Bytes::from_slice(alloc, b" ")?;
    line.append(own_trap_text(alloc, trap)?.as_slice())?;
    Ok(line)
}

/// `trapped KIND`, the last line where the work between the calls traps.
#[tactic(auto, using(std::proofs::Common::append_assoc), unfolding(crate::specs::Transcript::own_trap_text))]
pub fn own_trap_text(alloc: Global, trap: Trap) -> Result<Bytes, Memory>
    ensures { IfOk result (λ line. line ≡ own_trap_text trap) }
{
    let mut line = Bytes::from_slice(alloc, b"trapped ")?;
    line.append(trap_name(trap))?;
    line.append(b"\n")?;
    Ok(line)
}

fn trap_name(trap: Trap) -> &'static [u8]
    ensures { result.now ≡ trap_name trap }
{
    match trap {
        Trap::Overflow => b"Overflow",
        Trap::Zero => b"Zero",
        Trap::Shift => b"Shift",
        Trap::Unset => b"Unset",
        Trap::Null => b"Null",
        Trap::Bounds => b"Bounds",
        Trap::Kind => b"Kind",
        Trap::Freed => b"Freed",
        Trap::Gone { name: _, next: _ } => b"Gone",
        Trap::Stale => b"Stale",
        Trap::Scope => b"Scope",
        Trap::Large => b"Large",
    }
}

// The least argument with this scalar.
fn alias_of(args: &[Name], name: Name) -> Option<usize>
    ensures { result ≡ position (λ a. a == name) args.now }
{
    args.iter().position(|arg| *arg == name)
}

// ` is arg K`, where the scalar is that of an argument; the least such argument is reported.
#[tactic(auto, unfolding(crate::specs::Transcript::alias_text))]
fn alias_text(alloc: Global, args: &[Name], name: Name) -> Result<Bytes, Memory>
    ensures { IfOk result (λ text. text ≡ alias_text args.now name) }
{
    match alias_of(args, name) {
        None => Ok(Bytes::new(alloc)),
        Some(k) => {
            let mut text = Bytes::from_slice(alloc, b" is arg ")?;
            text.append_number(alloc, k as u64)?;
            Ok(text)
        }
    }
}

/// `  item I = V`, and whether the scalar is that of an argument.
#[tactic(auto, using(std::proofs::Common::append_assoc), unfolding(crate::specs::Transcript::item_line))]
pub fn item_line(
    alloc: Global,
    shown: &Bytes,
    args: &[Name],
    place: usize,
    name: Name,
) -> Result<Bytes, Memory>
    ensures { IfOk result (λ line. line ≡ item_line (λ n. shown.now) args.now place name) }
{
    let mut line = Bytes::from_slice(alloc, b"  item ")?;
    line.append_number(alloc, place as u64)?;
    line.append(b" = ")?;
    line.append(shown.as_slice())?;
    line.append(alias_text(alloc, args, name)?.as_slice())?;
    line.append(b"\n")?;
    Ok(line)
}

/// `  arg I = V`
#[tactic(auto, using(std::proofs::Common::append_assoc), unfolding(crate::specs::Transcript::arg_line))]
pub fn arg_line(alloc: Global, shown: &Bytes, place: usize) -> Result<Bytes, Memory>
    ensures { IfOk result (λ line. line ≡ arg_line (λ n. shown.now) place 0) }
{
    let mut line = Bytes::from_slice(alloc, b"  arg ")?;
    line.append_number(alloc, place as u64)?;
    line.append(b" = ")?;
    line.append(shown.as_slice())?;
    line.append(b"\n")?;
    Ok(line)
}

/// `  live L marks M scopes S`
#[tactic(auto, using(std::proofs::Common::append_assoc), unfolding(crate::specs::Transcript::live_line))]
pub fn live_line(alloc: Global, live: u32, marks: u64, scopes: u64) -> Result<Bytes, Memory>
    ensures { IfOk result (λ line. line ≡ live_line live marks scopes) }
{
    let mut line = Bytes::from_slice(alloc, b"  live ")?;
    line.append_number(alloc, u64::from(live))?;
    line.append(b" marks ")?;
    line.append_number(alloc, marks)?;
    line.append(b" scopes ")?;
    line.append_number(alloc, scopes)?;
    line.append(b"\n")?;
    Ok(line)
}
