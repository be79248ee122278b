//! Lines of C that give nothing but an `#include` or PERL_NO_GET_CONTEXT.
ghost use Rattle.std.specs.List.{list_all};
ghost use Rattle.std.specs.Prelude.{◌≡◌, IfOk};
ghost use Rattle.xs_base.specs.Lines.{has_no_end};
ghost use Rattle.xs_iface.specs.PassedLines as spec;

use std::alloc::Global;
use xs_base::{
    Bytes, FileOf, Items, Line, Memory, Refuse, is_blank_line, is_remark, without_carriage_return,
};
use xs_ctok::{TokKind, Token, are_short, tokens};

fn is_passed_kind(kind: &TokKind) -> bool
    ensures { result ≡ spec.is_passed_kind kind.now }
{
    matches!(kind, TokKind::Include)
}

fn are_passed(all: &[Token]) -> bool
    ensures { result ≡ list_all spec.is_passed_token all.now }
{
    for token in all {
        if !is_passed_kind(&token.kind) {
            return false;
        }
    }
    true
}

// Whether no byte ends a line.
fn has_no_end(text: &[u8]) -> bool
    ensures { result ≡ has_no_end text.now }
{
    for byte in text {
        if *byte == 10 {
            return false;
        }
    }
    true
}

// Whether it is one line, which is blank or begins with `#` after blanks.
fn may_pass(text: &[u8]) -> bool
    ensures { result ≡ spec.may_pass text.now }
{
    has_no_end(text) && (is_blank_line(text) || is_remark(text))
}

// The bytes as the one line of a C text.
fn alone(alloc: Global, text: &[u8]) -> Result<Items<Line>, Memory>
    ensures { IfOk result (λ all. all ≡ spec.alone text.now) }
{
    let text = Bytes::from_slice(alloc, without_carriage_return(text))?;
    let mut all = Items::new(alloc);
    all.push(Line { number: 1, text })?;
    Ok(all)
}

/// Whether a line of C gives nothing but an `#include` or PERL_NO_GET_CONTEXT.
#[tactic(auto, unfolding(crate::specs::PassedLines::is_passed_line))]
pub fn is_passed_line(alloc: Global, text: &[u8]) -> Result<bool, Memory>
    ensures { IfOk result (λ passed. passed ≡ spec.is_passed_line text.now) }
{
    if !may_pass(text) {
        return Ok(false);
    }
    let line = alone(alloc, text)?;
    if !are_short(line.as_slice()) {
        return Ok(false);
    }
    match tokens(alloc, line.as_slice(), FileOf::Text) {
        Ok(all) => Ok(are_passed(all.as_slice())),
        Err(Refuse::Fault(_fault)) => Ok(false),
        Err(Refuse::Memory) => Err(Memory),
    }
}
