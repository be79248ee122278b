//! The tokens of a default.
ghost use Rattle.std.specs.Prelude.{◌≡◌, ◌∷◌, IfOk};
ghost use Rattle.xs_params.specs.ParamSteps as spec;

use crate::opens::Bracket;
use crate::param::Param;
use crate::source_text::preset_of;
use crate::states::{Due, Extent, Pending, Step};
use crate::steps::after_param;
use crate::token_tests::{closed_by, is_directive, is_no_init, is_sign, opened_by};
use std::alloc::Global;
use xs_base::{Line, Memory};
use xs_ctok::Token;

// One token more.
fn extended(extent: Option<Extent>, t: &Token) -> Extent
    ensures { result ≡ spec.extended extent t.now }
{
    let text = t.text.as_slice();
    let to_col = t.span.col as usize + text.len();
    match extent {
        None => Extent {
            from: t.span,
            to_line: t.span.line,
            to_col,
            no_init: is_no_init(t),
        },
        Some(x) => Extent {
            from: x.from,
            to_line: t.span.line,
            to_col,
            no_init: false,
        },
    }
}

// A token of the default.
fn default_on(d: Pending, t: &Token) -> Step
    ensures { result ≡ spec.default_on d d.opens t.now }
{
    let Pending {
        param,
        opens,
        extent,
    } = d;
    Step::On(Due::Default(Pending {
        param,
        opens,
        extent: Some(extended(extent, t)),
    }))
}

fn opened_in(d: Pending, b: Bracket, t: &Token) -> Result<Step, Memory>
    ensures { IfOk result (λ s. s ≡ spec.default_on d (b ∷ d.opens) t.now) }
{
    let Pending {
        param,
        mut opens,
        extent,
    } = d;
    opens.open(b)?;
    Ok(default_on(
        Pending {
            param,
            opens,
            extent,
        },
        t,
    ))
}

fn same_bracket(a: Bracket, b: Bracket) -> bool
    ensures { result ≡ spec.same_bracket a b }
{
    match (a, b) {
        (Bracket::Round, Bracket::Round) => true,
        (Bracket::Square, Bracket::Square) => true,
        (Bracket::Curly, Bracket::Curly) => true,
        _ => false,
    }
}

fn closed_in(d: Pending, b: Bracket, t: &Token) -> Step
    ensures { result ≡ spec.closed_in d d.opens b t.now }
{
    let Pending {
        param,
        mut opens,
        extent,
    } = d;
    match opens.close() {
        None => Step::Stray(Some(param)),
        Some(inner) => {
            if same_bracket(inner, b) {
                default_on(
                    Pending {
                        param,
                        opens,
                        extent,
                    },
                    t,
                )
            } else {
                Step::Stray(Some(param))
            }
        }
    }
}

#[tactic(auto, unfolding(crate::specs::ParamSteps::default_token))]
fn default_token(d: Pending, t: &Token) -> Result<Step, Memory>
    ensures { IfOk result (λ s. s ≡ spec.default_token d t.now) }
{
    if is_directive(t) {
        return Ok(Step::Stray(Some(d.param)));
    }
    match opened_by(t) {
        Some(b) => opened_in(d, b, t),
        None => match closed_by(t) {
            Some(b) => Ok(closed_in(d, b, t)),
            None => Ok(default_on(d, t)),
        },
    }
}

// The parameter with what its default says.
fn with_default(alloc: Global, src: &[Line], p: Param, x: Extent) -> Result<Param, Memory>
    ensures { IfOk result (λ q. q ≡ spec.with_default src.now p x) }
{
    let default = Some(preset_of(alloc, src, x)?);
    Ok(Param { default, ..p })
}

// The default ends, and may not be empty.
fn default_ended(alloc: Global, src: &[Line], d: Pending, t: &Token) -> Result<Step, Memory>
    ensures { IfOk result (λ s. s ≡ spec.default_ended src.now d d.extent t.now) }
{
    match d.extent {
        None => Ok(Step::Stray(Some(d.param))),
        Some(x) => {
            let p = with_default(alloc, src, d.param, x)?;
            Ok(after_param(p, t))
        }
    }
}

fn ends_default(d: &Pending, t: &Token) -> bool
    ensures { result ≡ spec.ends_default d.now t.now }
{
    d.opens.is_empty() && (is_sign(b",", t) || is_sign(b")", t))
}

/// What the next token does after the `=` of a parameter.
#[tactic(auto, unfolding(crate::specs::ParamSteps::in_default))]
pub fn in_default(alloc: Global, src: &[Line], d: Pending, t: &Token) -> Result<Step, Memory>
    ensures { IfOk result (λ s. s ≡ spec.in_default src.now d t.now) }
{
    if ends_default(&d, t) {
        default_ended(alloc, src, d, t)
    } else {
        default_token(d, t)
    }
}
