//! A parameter list is read.
ghost use Rattle.xs_base.specs.Reading.{Gives};
ghost use Rattle.std.specs.Prelude.{◌≡◌};
ghost use Rattle.xs_params.specs.ParamLists as spec;

use crate::checks::first_param_fault;
use crate::form::{Ending, Form, read_form};
use crate::param::{Param, ParamList};
use crate::source_text::{is_clear, last_filled, rest_after};
use std::alloc::Global;
use xs_base::fault_codes::BAD_PARAMETER_LIST;
use xs_base::{Fault, FileOf, Items, Line, Refuse};
use xs_ctok::Token;

fn bad_list(alloc: Global, line: u32) -> Fault
    ensures { result ≡ spec.bad_list line }
{
    Fault::bare(alloc, FileOf::Xs, line, BAD_PARAMETER_LIST)
}

// A list of these parameters, by what ends it.
fn ended_list(
    alloc: Global,
    src: &[Line],
    params: Items<Param>,
    ending: Ending,
) -> Result<ParamList, Refuse>
    ensures { Gives result (spec.ended_list src.now params ending) }
{
    match ending {
        Ending::Open => Err(Refuse::Fault(bad_list(alloc, last_filled(src)))),
        Ending::Stray(line) => Err(Refuse::Fault(bad_list(alloc, line))),
        Ending::Closed(ellipsis, at) => {
            if is_clear(rest_after(src, at)) {
                Ok(ParamList {
                    params,
                    ellipsis,
                    last_line: at.line,
                })
            } else {
                Err(Refuse::Fault(bad_list(alloc, at.line)))
            }
        }
    }
}

fn list_of(alloc: Global, src: &[Line], form: Form) -> Result<ParamList, Refuse>
    ensures { Gives result (spec.list_of src.now form) }
{
    let Form { named, ending } = form;
    match first_param_fault(alloc, named.as_slice())? {
        Some(fault) => Err(Refuse::Fault(fault)),
        None => ended_list(alloc, src, named, ending),
    }
}

/// The parameters of a list, or its first fault, in the order of its tokens (perlxs: "The XSUB
/// Parameter List", "Default Parameter Values").
///
/// `src` holds the lines of the paragraph, or those up to a byte at which no token begins. `t`
/// holds the tokens after the list's `(`, up to that byte or as far as the `)` of the list or
/// farther; what stands after the `)` is read from the lines.
///
/// | code | where |
/// |---|---|
/// | 302 | a token that has no reading; an `=` after a parameter that may have no default; the
/// last line that is not empty, where the tokens end before the list; what stands after the `)` on
/// its line, blanks and comments aside |
/// | 303 | a name that an earlier parameter has; that name is the fault's word |
/// | 304 | the 65th parameter |
/// | 307 | a parameter that an argument stands for and that has no default, after one that has
/// one; its name is the fault's word |
///
/// The last three come as soon as a `,`, `)` or `=` stands after the name, or the `)` of
/// `length(NAME)`, and are on the line of the name.
#[tactic(auto, unfolding(crate::specs::ParamLists::params_of))]
pub fn read_params(alloc: Global, src: &[Line], t: &[Token]) -> Result<ParamList, Refuse>
    ensures { Gives result (spec.params_of src.now t.now) }
{
    let form = read_form(alloc, src, t)?;
    list_of(alloc, src, form)
}
