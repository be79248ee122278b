//! MODULE lines.
ghost use Rattle.std.specs.Option.{option_map};
ghost use Rattle.std.specs.Prelude.{◌≡◌, IfOk, None, Some, if◌then◌else◌};
ghost use Rattle.xs_base.specs.Names.{is_qualified_name};
ghost use Rattle.xs_base.specs.Scanning.{is_identifier};
ghost use Rattle.xs_sections.specs.ModuleLine as spec;
ghost use Rattle.xs_sections.specs.declared.words.TheConstants.{MODULE, PACKAGE, PREFIX};

use crate::class::LineClass;
use crate::sections::ModuleNames;
use crate::words::{MODULE, PACKAGE, PREFIX};
use std::alloc::Global;
use xs_base::{
    ByteClass, Bytes, Memory, after_blanks, cut_run, is_blank_line, is_identifier,
    is_qualified_name, strip_prefix,
};

/// Reads `WORD = VALUE` at the front of a text: the value, which ends before a blank, and what
/// stands after it.
fn assignment<'a>(word: &[u8], text: &'a [u8]) -> Option<(&'a [u8], &'a [u8])>
    ensures { option_map spec.shown result ≡ spec.assignment word.now text.now }
{
    let more = strip_prefix(word, after_blanks(text))?;
    let value = strip_prefix(b"=", after_blanks(more))?;
    Some(cut_run(ByteClass::NoBlank, after_blanks(value)))
}

/// A value and what stands after it, where the value is good.
fn good_value<'a>(is_good: bool, value: &'a [u8], more: &'a [u8]) -> Option<(&'a [u8], &'a [u8])>
    ensures { option_map spec.shown result
        ≡ (if is_good then Some (value.now, more.now) else None) }
{
    if is_good { Some((value, more)) } else { None }
}

fn module_of(text: &[u8]) -> Option<(&[u8], &[u8])>
    ensures { option_map spec.shown result
        ≡ spec.required is_qualified_name (spec.assignment MODULE.now text.now) }
{
    match assignment(MODULE.as_bytes(), text) {
        None => None,
        Some((name, more)) => good_value(is_qualified_name(name), name, more),
    }
}

fn package_of(text: &[u8]) -> Option<(&[u8], &[u8])>
    ensures { option_map spec.shown result
        ≡ spec.optional is_qualified_name (spec.assignment PACKAGE.now text.now) text.now }
{
    match assignment(PACKAGE.as_bytes(), text) {
        None => Some((b"".as_slice(), text)),
        Some((name, more)) => good_value(is_qualified_name(name), name, more),
    }
}

fn prefix_of(text: &[u8]) -> Option<(&[u8], &[u8])>
    ensures { option_map spec.shown result
        ≡ spec.optional is_identifier (spec.assignment PREFIX.now text.now) text.now }
{
    match assignment(PREFIX.as_bytes(), text) {
        None => Some((b"".as_slice(), text)),
        Some((word, more)) => good_value(is_identifier(word), word, more),
    }
}

/// What a line is whose first word is MODULE: with the names that it sets, or of no good form.
#[tactic(auto, unfolding(crate::specs::ModuleLine::module_names))]
pub fn module_class(alloc: Global, line: &[u8]) -> Result<LineClass, Memory>
    ensures { IfOk result (λ class. class ≡ spec.module_class line.now) }
{
    let Some((module, after_module)) = module_of(line) else {
        return Ok(LineClass::BadModule);
    };
    let Some((package, after_package)) = package_of(after_module) else {
        return Ok(LineClass::BadModule);
    };
    let Some((prefix, after_prefix)) = prefix_of(after_package) else {
        return Ok(LineClass::BadModule);
    };
    if !is_blank_line(after_prefix) {
        return Ok(LineClass::BadModule);
    }
    Ok(LineClass::Module(ModuleNames {
        module: Bytes::from_slice(alloc, module)?,
        package: Bytes::from_slice(alloc, package)?,
        prefix: Bytes::from_slice(alloc, prefix)?,
    }))
}
