//! The form of a parameter list: the parameters that it names, and what ends it.
ghost use Rattle.std.specs.Option.{option_to_list};
ghost use Rattle.std.specs.Prelude.{◌≡◌, ◌++◌, IfOk, OnOk};
ghost use Rattle.xs_params.specs.ParamLists as spec;

use crate::param::Param;
use crate::states::{Due, Step};
use crate::steps::step;
use std::alloc::Global;
use xs_base::{Items, Line, Memory, Span};
use xs_ctok::Token;

/// What ends a list.
#[derive(Clone, Copy, Debug, PartialEq, Eq)]
pub enum Ending {
    /// Nothing: no token is left.
    Open,
    /// Its `)` at this place; whether `...` stands before it.
    Closed(bool, Span),
    /// A token on this line, which has no reading.
    Stray(u32),
}

/// The parameters that are named before a list ends or a token has no reading, and what ends it.
#[derive(Debug, Drop)]
pub struct Form {
    pub named: Items<Param>,
    pub ending: Ending,
}

// The parameter that is named, and not at its end.
fn pending(due: Due) -> Option<Param>
    ensures { result ≡ spec.pending due }
{
    match due {
        Due::Length(p) => Some(p),
        Due::Default(d) => Some(d.param),
        _ => None,
    }
}

// These parameters, and one more if there is one.
fn formed(params: Items<Param>, last: Option<Param>, ending: Ending) -> Result<Form, Memory>
    ensures { IfOk result (λ form. form ≡ spec.formed params last ending) }
{
    let mut named = params;
    if let Some(p) = last {
        named.push(p)?;
    }
    Ok(Form { named, ending })
}

/// The form of a list, by the tokens after its `(`.
#[tactic(auto, unfolding(crate::specs::ParamLists::form_from))]
pub fn read_form(alloc: Global, src: &[Line], tokens: &[Token]) -> Result<Form, Memory>
    ensures { IfOk result (λ form. form ≡ spec.form_of src.now tokens.now) }
{
    let mut due = Due::First;
    let mut params = Items::new(alloc);
    for t in tokens {
        match step(alloc, src, due, t)? {
            Step::On(next) => due = next,
            Step::Ended(p) => {
                params.push(p)?;
                due = Due::Next;
            }
            Step::Closed(last, ellipsis) => {
                return formed(params, last, Ending::Closed(ellipsis, t.span));
            }
            Step::Stray(last) => return formed(params, last, Ending::Stray(t.span.line)),
        }
    }
    formed(params, pending(due), Ending::Open)
}
