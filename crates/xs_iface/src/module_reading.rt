//! The module that an XS file describes.
ghost use Rattle.std.specs.Prelude.{◌≡◌, IfOk};
ghost use Rattle.xs_base.specs.Reading.{Gives};
ghost use Rattle.xs_iface.specs.Iface.{module_of};

use crate::drafts::read_drafts;
use crate::repeats::first_repeat;
use crate::resolving::read_xsubs;
use crate::xsub::Module;
use std::alloc::Global;
use xs_base::{Bytes, Items, Line, Memory, Refuse};
use xs_sections::Sections;

// The same lines.
fn copy_lines(alloc: Global, lines: &[Line]) -> Result<Items<Line>, Memory>
    ensures { IfOk result (λ copies. copies ≡ lines.now) }
{
    let mut copies = Items::new(alloc);
    for line in lines {
        copies.push(Line {
            number: line.number,
            text: line.text.copy(alloc)?,
        })?;
    }
    Ok(copies)
}

/// The module of an XS file of the forms that are built so far: each line of the C part is empty,
/// an `#include` line or `#define PERL_NO_GET_CONTEXT`, and each part is an XSUB of the form
/// `is_sum_xsub`.
///
/// | code | line | word | where |
/// |---|---|---|---|
/// | 999 | the line of the form | | a line of the C part is of no form that is built; else a
/// paragraph is not, on its first line, or there is a typemap block, on its line `TYPEMAP:` |
/// | 303 | the interface line | the name | a parameter has the name of an earlier one |
/// | 304 | the interface line | | a 65th parameter, with another name |
/// | 407 | the interface line | the name for Perl | an XSUB has the name for Perl or the glue name
/// of an earlier one |
///
/// 999 comes before the others, and 407 after them; of two faults of one stage the earlier is
/// reported.
#[tactic(auto, unfolding(crate::specs::Iface::module_of))]
pub fn read_module(alloc: Global, s: &Sections) -> Result<Module, Refuse>
    ensures { Gives result (module_of s.now) }
{
    let drafts = read_drafts(alloc, s)?;
    let xsubs = read_xsubs(alloc, drafts.as_slice())?;
    if let Some(fault) = first_repeat(alloc, xsubs.as_slice())? {
        return Err(Refuse::Fault(fault));
    }
    Ok(Module {
        boot: Bytes::from_slice(alloc, s.last_module())?,
        boot_line: s.module_line,
        c_part: copy_lines(alloc, s.c_part.as_slice())?,
        xsubs,
    })
}
