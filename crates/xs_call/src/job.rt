//! The jobs of `check`, `compile` and `call`.
ghost use Rattle.std.specs.Prelude.{◌-◌, ◌^◌, ◌<◌, IfOk, Ok, length};
ghost use Rattle.xs_base.specs.Reading.{Gives, GivesBy};
ghost use Rattle.xs_call.specs.Jobs.{call_of, check_of, compile_of, module_in, text_transcript};
ghost use Rattle.xs_csyn.specs.FileViews.{file_tree};
ghost use Rattle.xs_stub.specs.Intended.{text_tree};
ghost use Rattle.xs_stub.specs.Stub.{glue_text};

use crate::calls::built_calls;
use crate::running::transcript;
use std::alloc::Global;
use xs_base::{Bytes, FileOf, Refuse, early_end, lines};
use xs_ccheck::check_file;
use xs_csyn::{CFile, read_file};
use xs_ctok::tokens;
use xs_iface::{Module, read_module};
use xs_machine::Machine;
use xs_meaning::CallCommand;
use xs_script::read_script;
use xs_sections::split;
use xs_stub::write_glue;

// The module of an XS file, or the first fault of the file.
#[tactic(auto, unfolding(crate::specs::Jobs::module_in))]
fn module_in(alloc: Global, xs: &Bytes) -> Result<Module, Refuse>
    requires { length xs.now < 2 ^ 32 - 1 }
    ensures { Gives result (module_in xs.now) }
{
    let sections = split(alloc, xs)?;
    let m = read_module(alloc, &sections)?;
    Ok(m)
}

/// Whether an XS file is accepted: its first fault comes where it is not.
#[tactic(auto, unfolding(crate::specs::Jobs::check_of))]
pub fn check(alloc: Global, xs: &Bytes) -> Result<(), Refuse>
    requires { length xs.now < 2 ^ 32 - 1 }
    ensures { Gives result (check_of xs.now) }
{
    let _module = module_in(alloc, xs)?;
    Ok(())
}

/// The glue text of an XS file: the C by which Perl calls its XSUBs. The first fault of the file
/// comes where it has one.
#[tactic(auto, unfolding(crate::specs::Jobs::compile_of))]
pub fn compile(alloc: Global, xs: &Bytes) -> Result<Bytes, Refuse>
    requires { length xs.now < 2 ^ 32 - 1 }
    ensures { Gives result (compile_of xs.now) }
{
    let m = module_in(alloc, xs)?;
    let text = glue_of(alloc, &m)?;
    Ok(text)
}

// The glue text of a module. No text is made that a reader of ours does not accept for its length.
fn glue_of(alloc: Global, m: &Module) -> Result<Bytes, Refuse>
    ensures text { Gives result (Ok (glue_text m.now)) }
    ensures short { IfOk result (λ text. length text < 2 ^ 32 - 1) }
{
    let text = write_glue(alloc, m)?;
    if text.len() >= u32::MAX as usize {
        return Err(Refuse::Memory);
    }
    Ok(text)
}

/// The transcript of a script's calls of the XSUBs of an XS file. The glue text is written, read
/// back, and run by the machine; what comes of it is the declared meaning of the calls.
///
/// The first fault of the XS file decides, then that of the script.
#[tactic(auto, using(crate::proofs::JobsJoin::call_gives), unfolding(crate::specs::Jobs::call_of))]
pub fn call(alloc: Global, xs: &Bytes, script: &Bytes) -> Result<Bytes, Refuse>
    requires xs { length xs.now < 2 ^ 32 - 1 }
    requires script { length script.now < 2 ^ 32 - 1 }
    ensures { Gives result (call_of xs.now script.now) }
{
    let m = module_in(alloc, xs)?;
    let commands = read_script(alloc, script)?;
    let calls = built_calls(alloc, commands.as_slice())?;
    let reported = run_glue(alloc, &m, calls.as_slice())?;
    Ok(reported)
}

// The transcript of the C text that is written for a module.
fn run_glue(alloc: Global, m: &Module, calls: &[CallCommand]) -> Result<Bytes, Refuse>
    ensures { Gives result (text_transcript (glue_text m.now) calls.now) }
{
    let text = glue_of(alloc, m)?;
    let reported = run_text(alloc, &text, calls)?;
    Ok(reported)
}

// The tree of a C text, or its first fault.
#[tactic(auto, using(xs_ctok::proofs::ShortLines::lines_are_short))]
fn text_tree(alloc: Global, text: &Bytes) -> Result<CFile, Refuse>
    requires { length text.now < 2 ^ 32 - 1 }
    ensures { GivesBy file_tree result (text_tree text.now) }
{
    let lines = lines(alloc, text)?;
    let tokens = tokens(alloc, lines.as_slice(), FileOf::Text)?;
    let last = early_end(alloc, text)?;
    let file = read_file(alloc, tokens.as_slice(), FileOf::Text, last)?;
    Ok(file)
}

// The transcript of a C text.
#[tactic(auto, unfolding(crate::specs::Jobs::text_transcript))]
fn run_text(alloc: Global, text: &Bytes, calls: &[CallCommand]) -> Result<Bytes, Refuse>
    requires { length text.now < 2 ^ 32 - 1 }
    ensures { Gives result (text_transcript text.now calls.now) }
{
    let file = text_tree(alloc, text)?;
    let typed = check_file(alloc, file)?;
    let mut machine = Machine::load(alloc, typed)?;
    let reported = transcript(alloc, &mut machine, calls)?;
    Ok(reported)
}
