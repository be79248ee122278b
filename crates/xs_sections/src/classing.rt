//! Says what a line is, by its text and by what the lines before it leave open.
ghost use Rattle.std.specs.Prelude.{◌≡◌, IfOk};
ghost use Rattle.xs_sections.specs.Classes as spec;

use crate::class::{LineClass, Region};
use crate::keywords::head_class;
use crate::marks::{begins_pod, ends_pod, is_directive, is_flush_left, is_module_line};
use crate::module_line::module_class;
use std::alloc::Global;
use xs_base::{Memory, is_blank_line, is_remark};

fn is_in_text(at: &Region) -> bool
    ensures { result ≡ spec.is_in_text at.now }
{
    matches!(at, Region::Body | Region::BodyGap | Region::Boot)
}

/// Whether a new paragraph begins at a line that is not empty.
fn opens_paragraph(at: &Region, text: &[u8]) -> bool
    ensures { result ≡ spec.opens_paragraph at.now text.now }
{
    match at {
        Region::Between => true,
        Region::HeadGap | Region::BodyGap => is_flush_left(text),
        _ => false,
    }
}

fn is_head(class: &LineClass) -> bool
    ensures { result ≡ spec.is_head class.now }
{
    matches!(
        class,
        LineClass::Keyword
            | LineClass::BadValue
            | LineClass::LeftOut(_)
            | LineClass::MapBegin(_)
            | LineClass::First
            | LineClass::FirstOfBoot
    )
}

/// Whether a paragraph begins at a line of this class.
pub fn starts_paragraph(at: &Region, class: &LineClass, text: &[u8]) -> bool
    ensures { result ≡ spec.starts_paragraph at.now class.now text.now }
{
    is_head(class) && opens_paragraph(at, text)
}

/// What a line is.
pub fn class_of(alloc: Global, in_pod: bool, at: &Region, text: &[u8]) -> Result<LineClass, Memory>
    ensures { IfOk result (λ class. class ≡ spec.class_of in_pod at.now text.now) }
{
    if in_pod {
        Ok(pod_class(text))
    } else if begins_pod(text) {
        Ok(LineClass::PodBegin)
    } else {
        class_at(alloc, at, text)
    }
}

fn pod_class(text: &[u8]) -> LineClass
    ensures { result ≡ spec.pod_class text.now }
{
    if ends_pod(text) {
        LineClass::PodEnd
    } else {
        LineClass::PodLine
    }
}

#[tactic(auto, unfolding(crate::specs::Classes::class_at))]
fn class_at(alloc: Global, at: &Region, text: &[u8]) -> Result<LineClass, Memory>
    ensures { IfOk result (λ class. class ≡ spec.class_at at.now text.now) }
{
    match at {
        Region::CPart => c_class(alloc, text),
        Region::Map(end) => Ok(map_line_class(end.as_slice(), text)),
        _ => xs_class(alloc, at, text),
    }
}

fn c_class(alloc: Global, text: &[u8]) -> Result<LineClass, Memory>
    ensures { IfOk result (λ class. class ≡ spec.c_class text.now) }
{
    if is_module_line(text) {
        module_class(alloc, text)
    } else {
        Ok(LineClass::C)
    }
}

fn map_line_class(end: &[u8], text: &[u8]) -> LineClass
    ensures { result ≡ spec.map_line_class end.now text.now }
{
    if text == end {
        LineClass::MapEnd
    } else if is_remark(text) {
        comment_class(text)
    } else {
        LineClass::MapLine
    }
}

fn xs_class(alloc: Global, at: &Region, text: &[u8]) -> Result<LineClass, Memory>
    ensures { IfOk result (λ class. class ≡ spec.xs_class at.now text.now) }
{
    if is_remark(text) {
        Ok(comment_class(text))
    } else if is_module_line(text) {
        module_class(alloc, text)
    } else {
        paragraph_class(alloc, at, text)
    }
}

fn comment_class(text: &[u8]) -> LineClass
    ensures { result ≡ spec.comment_class text.now }
{
    if is_directive(text) {
        LineClass::Directive
    } else {
        LineClass::Comment
    }
}

fn paragraph_class(alloc: Global, at: &Region, text: &[u8]) -> Result<LineClass, Memory>
    ensures { IfOk result (λ class. class ≡ spec.paragraph_class at.now text.now) }
{
    if is_blank_line(text) {
        Ok(if is_in_text(at) {
            LineClass::Blank
        } else {
            LineClass::Outside
        })
    } else if is_in_text(at) && !opens_paragraph(at, text) {
        Ok(LineClass::Further)
    } else {
        head_class(alloc, text)
    }
}
