//! What the next token of a parameter list does.
ghost use Rattle.std.specs.Prelude.{◌≡◌, IfOk};
ghost use Rattle.xs_params.specs.ParamSteps as spec;

use crate::defaults::in_default;
use crate::heads::{bare_head, head_of, named, param_with, typed_of, with_stars};
use crate::opens::Opens;
use crate::param::{Dir, Param, Preset};
use crate::states::{Due, Head, Named, Pending, Step, Typed};
use crate::token_tests::{direction_of, is_same, is_sign, is_word};
use std::alloc::Global;
use xs_base::{Line, Memory};
use xs_ctok::Token;

/// After a parameter.
#[tactic(auto, unfolding(crate::specs::ParamSteps::after_param))]
pub fn after_param(p: Param, t: &Token) -> Step
    ensures { result ≡ spec.after_param p t.now }
{
    if is_sign(b",", t) {
        Step::Ended(p)
    } else if is_sign(b")", t) {
        Step::Closed(Some(p), false)
    } else {
        Step::Stray(Some(p))
    }
}

fn may_have_default(dir: Dir) -> bool
    ensures { result ≡ spec.may_have_default dir }
{
    match dir {
        Dir::In | Dir::InOut => true,
        _ => false,
    }
}

// A default begins, where the parameter may have one.
fn begun_default(alloc: Global, p: Param) -> Step
    ensures { result ≡ spec.begun_default p }
{
    if may_have_default(p.dir) {
        Step::On(Due::Default(Pending {
            param: p,
            opens: Opens::new(alloc),
            extent: None,
        }))
    } else {
        Step::Stray(Some(p))
    }
}

fn is_length_word(n: &Named) -> bool
    ensures { result ≡ spec.is_length_word n.now }
{
    is_same(n.name.as_slice(), b"length") && !n.by_address && !n.head.dir.is_some()
}

// `length(`, where the word before the `(` is that.
fn begun_length(n: Named) -> Step
    ensures { result ≡ spec.begun_length n }
{
    if is_length_word(&n) {
        Step::On(Due::LengthOpen(n.head))
    } else {
        Step::Stray(None)
    }
}

// After what is the name of a parameter.
#[tactic(auto, unfolding(crate::specs::ParamSteps::after_name))]
fn after_name(alloc: Global, n: Named, t: &Token) -> Step
    ensures { result ≡ spec.after_name n t.now }
{
    if is_sign(b",", t) {
        Step::Ended(param_with(None, false, n))
    } else if is_sign(b")", t) {
        Step::Closed(Some(param_with(None, false, n)), false)
    } else if is_sign(b"=", t) {
        begun_default(alloc, param_with(Some(Preset::NoInit), false, n))
    } else if is_sign(b"(", t) {
        begun_length(n)
    } else {
        Step::Stray(None)
    }
}

// The first word of a parameter.
fn begun_by(alloc: Global, direction: Option<Dir>, t: &Token) -> Result<Due, Memory>
    ensures { IfOk result (λ d. d ≡ spec.begun_by direction t.now) }
{
    let name = named(alloc, bare_head(None, t.span.line), false, t)?;
    match direction {
        None => Ok(Due::Words(name)),
        Some(direction) => Ok(Due::Direction(direction, name)),
    }
}

#[tactic(auto, unfolding(crate::specs::ParamSteps::begun))]
fn begun(alloc: Global, t: &Token) -> Result<Step, Memory>
    ensures { IfOk result (λ s. s ≡ spec.begun t.now) }
{
    if is_word(t) {
        Ok(Step::On(begun_by(alloc, direction_of(t.text.as_slice()), t)?))
    } else if is_sign(b"...", t) {
        Ok(Step::On(Due::Ellipsis))
    } else {
        Ok(Step::Stray(None))
    }
}

#[tactic(auto, unfolding(crate::specs::ParamSteps::begun_first))]
fn begun_first(alloc: Global, t: &Token) -> Result<Step, Memory>
    ensures { IfOk result (λ s. s ≡ spec.begun_first t.now) }
{
    if is_sign(b")", t) {
        Ok(Step::Closed(None, false))
    } else {
        begun(alloc, t)
    }
}

// After a direction, which has this name where it is one.
#[tactic(auto, unfolding(crate::specs::ParamSteps::after_direction))]
fn after_direction(alloc: Global, direction: Dir, n: Named, t: &Token) -> Result<Step, Memory>
    ensures { IfOk result (λ s. s ≡ spec.after_direction direction n t.now) }
{
    if is_word(t) {
        let head = bare_head(Some(direction), t.span.line);
        Ok(Step::On(Due::Words(named(alloc, head, false, t)?)))
    } else {
        Ok(after_name(alloc, n, t))
    }
}

// After words, where a further word follows.
fn one_more_word(alloc: Global, n: Named, t: &Token) -> Result<Step, Memory>
    ensures { IfOk result (λ s. s ≡ spec.one_more_word n t.now) }
{
    let head = head_of(typed_of(n)?);
    Ok(Step::On(Due::Words(named(alloc, head, false, t)?)))
}

fn first_star(n: Named) -> Result<Step, Memory>
    ensures { IfOk result (λ s. s ≡ spec.first_star n) }
{
    let typed = typed_of(n)?;
    Ok(Step::On(Due::Stars(with_stars(b" *", typed)?)))
}

#[tactic(auto, unfolding(crate::specs::ParamSteps::after_words))]
fn after_words(alloc: Global, n: Named, t: &Token) -> Result<Step, Memory>
    ensures { IfOk result (λ s. s ≡ spec.after_words n t.now) }
{
    if is_word(t) {
        one_more_word(alloc, n, t)
    } else if is_sign(b"*", t) {
        first_star(n)
    } else if is_sign(b"&", t) {
        Ok(Step::On(Due::Address(typed_of(n)?)))
    } else {
        Ok(after_name(alloc, n, t))
    }
}

#[tactic(auto, unfolding(crate::specs::ParamSteps::after_stars))]
fn after_stars(alloc: Global, typed: Typed, t: &Token) -> Result<Step, Memory>
    ensures { IfOk result (λ s. s ≡ spec.after_stars typed t.now) }
{
    if is_sign(b"*", t) {
        Ok(Step::On(Due::Stars(with_stars(b"*", typed)?)))
    } else if is_sign(b"&", t) {
        Ok(Step::On(Due::Address(typed)))
    } else if is_word(t) {
        Ok(Step::On(Due::Name(named(alloc, head_of(typed), false, t)?)))
    } else {
        Ok(Step::Stray(None))
    }
}

#[tactic(auto, unfolding(crate::specs::ParamSteps::after_address))]
fn after_address(alloc: Global, typed: Typed, t: &Token) -> Result<Step, Memory>
    ensures { IfOk result (λ s. s ≡ spec.after_address typed t.now) }
{
    if is_word(t) {
        Ok(Step::On(Due::Name(named(alloc, head_of(typed), true, t)?)))
    } else {
        Ok(Step::Stray(None))
    }
}

#[tactic(auto, unfolding(crate::specs::ParamSteps::in_length))]
fn in_length(alloc: Global, head: Head, t: &Token) -> Result<Step, Memory>
    ensures { IfOk result (λ s. s ≡ spec.in_length head t.now) }
{
    if is_word(t) {
        Ok(Step::On(Due::LengthName(named(alloc, head, false, t)?)))
    } else {
        Ok(Step::Stray(None))
    }
}

#[tactic(auto, unfolding(crate::specs::ParamSteps::after_length_name))]
fn after_length_name(n: Named, t: &Token) -> Step
    ensures { result ≡ spec.after_length_name n t.now }
{
    if is_sign(b")", t) {
        Step::On(Due::Length(param_with(None, true, n)))
    } else {
        Step::Stray(None)
    }
}

#[tactic(auto, unfolding(crate::specs::ParamSteps::after_ellipsis))]
fn after_ellipsis(t: &Token) -> Step
    ensures { result ≡ spec.after_ellipsis t.now }
{
    if is_sign(b")", t) {
        Step::Closed(None, true)
    } else {
        Step::Stray(None)
    }
}

/// What the next token does.
#[tactic(auto, unfolding(crate::specs::ParamSteps::step_of))]
pub fn step(alloc: Global, src: &[Line], due: Due, t: &Token) -> Result<Step, Memory>
    ensures { IfOk result (λ s. s ≡ spec.step_of src.now due t.now) }
{
    match due {
        Due::First => begun_first(alloc, t),
        Due::Next => begun(alloc, t),
        Due::Direction(direction, n) => after_direction(alloc, direction, n, t),
        Due::Words(n) => after_words(alloc, n, t),
        Due::Stars(typed) => after_stars(alloc, typed, t),
        Due::Address(typed) => after_address(alloc, typed, t),
        Due::Name(n) => Ok(after_name(alloc, n, t)),
        Due::LengthOpen(head) => in_length(alloc, head, t),
        Due::LengthName(n) => Ok(after_length_name(n, t)),
        Due::Length(p) => Ok(after_param(p, t)),
        Due::Default(d) => in_default(alloc, src, d, t),
        Due::Ellipsis => Ok(after_ellipsis(t)),
    }
}
