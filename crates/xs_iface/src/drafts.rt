//! Paragraphs of the form, with the names of their functions; or the fault of the first form that
//! is not built.
ghost use Rattle.std.specs.Prelude.{◌≡◌, IfOk};
ghost use Rattle.xs_base.specs.Reading.{Gives, collect};
ghost use Rattle.xs_iface.specs.Iface.{body_paragraph, c_part_fault, draft_from, draft_of, drafts_of};

use crate::paragraph::{Paragraph, read_paragraph};
use crate::passed_lines::is_passed_line;
use crate::spelling::{full_name, glue_name, perl_name};
use std::alloc::Global;
use xs_base::{Bytes, Fault, FileOf, Items, Line, Memory, Refuse};
use xs_sections::{Part, PartBody, Sections};

/// A paragraph of the form, and the names of its function.
#[derive(Debug, Drop)]
pub struct Draft {
    /// The name under which Perl calls the function.
    pub full: Bytes,
    /// The name of the glue function.
    pub glue: Bytes,
    pub paragraph: Paragraph,
}

// A paragraph with the names of its function.
fn name_paragraph(
    alloc: Global,
    s: &Sections,
    part: &Part,
    paragraph: Paragraph,
) -> Result<Draft, Memory>
    ensures { IfOk result (λ draft. draft ≡ draft_from s.now part.now paragraph) }
{
    let name = perl_name(s.prefix_of(part), paragraph.function.as_slice());
    let full = full_name(alloc, s.package_of(part), name)?;
    let glue = glue_name(alloc, s.package_of(part), name)?;
    Ok(Draft {
        full,
        glue,
        paragraph,
    })
}

// The paragraph of a part, where it is of the form.
fn read_body(alloc: Global, body: &PartBody) -> Result<Option<Paragraph>, Memory>
    ensures { IfOk result (λ paragraph. paragraph ≡ body_paragraph body.now) }
{
    match body {
        PartBody::Para(lines) => {
            let paragraph = read_paragraph(alloc, lines.as_slice())?;
            Ok(paragraph)
        }
        PartBody::Map(_lines) => Ok(None),
    }
}

// A part, or the fault of one that is not of the form.
fn read_draft(alloc: Global, s: &Sections, part: &Part) -> Result<Draft, Refuse>
    ensures { Gives result (draft_of s.now part.now) }
{
    match read_body(alloc, &part.body)? {
        Some(paragraph) => {
            let draft = name_paragraph(alloc, s, part, paragraph)?;
            Ok(draft)
        }
        None => Err(Refuse::Fault(Fault::not_built(alloc, FileOf::Xs, part.line))),
    }
}

// All parts, or the fault of the first that is not of the form.
fn read_parts(alloc: Global, s: &Sections, parts: &[Part]) -> Result<Items<Draft>, Refuse>
    ensures { Gives result (collect (draft_of s.now) parts.now) }
{
    let mut drafts = Items::new(alloc);
    for part in parts {
        let draft = read_draft(alloc, s, part)?;
        drafts.push(draft)?;
    }
    Ok(drafts)
}

// The fault of the first line of the C part that is of no form that is built.
fn c_part_fault(alloc: Global, lines: &[Line]) -> Result<Option<Fault>, Memory>
    ensures { IfOk result (λ fault. fault ≡ c_part_fault lines.now) }
{
    for line in lines {
        let is_passed = is_passed_line(alloc, line.text.as_slice())?;
        if !is_passed {
            return Ok(Some(Fault::not_built(alloc, FileOf::Xs, line.number)));
        }
    }
    Ok(None)
}

/// All parts, or the fault of the first form that is not built: the C part stands before the parts.
#[tactic(auto, unfolding(crate::specs::Iface::drafts_of))]
pub fn read_drafts(alloc: Global, s: &Sections) -> Result<Items<Draft>, Refuse>
    ensures { Gives result (drafts_of s.now) }
{
    match c_part_fault(alloc, s.c_part.as_slice())? {
        Some(fault) => Err(Refuse::Fault(fault)),
        None => {
            let drafts = read_parts(alloc, s, s.parts.as_slice())?;
            Ok(drafts)
        }
    }
}
