//! The form of an XSUB that gives a sum: its six lines, and what they say.
ghost use Rattle.std.specs.List.{list_all};
ghost use Rattle.std.specs.Prelude.{◌≡◌, IfOk, MatchOption, None, Some};
ghost use Rattle.xs_base.specs.Scanning.{is_blank_line};
ghost use Rattle.xs_iface.specs.Paragraph.{interface_of, is_block_line, is_frame, is_sum_paragraph, paragraph_of, paragraph_with, sum_of};
ghost use Rattle.xs_iface.specs.ReservedWords.{is_free};

use crate::reserved_words::{is_free, is_same};
use crate::scan::read_chain;
use crate::terms::{MOST_TERMS, are_terms};
use std::alloc::Global;
use xs_base::{
    ByteClass, Bytes, Items, Line, Memory, after_blanks, cut_run, is_blank_line, strip_prefix,
};

/// What an interface line says.
#[derive(Debug, Drop)]
pub struct Interface {
    pub function: Bytes,
    pub params: Items<Bytes>,
}

/// What the line of a sum says: the blanks in front of it, and its terms.
#[derive(Debug, Drop)]
pub struct Sum {
    pub indent: Bytes,
    pub words: Items<Bytes>,
}

/// What a paragraph of the form says.
#[derive(Debug, Drop)]
pub struct Paragraph {
    /// The number of the interface line.
    pub line: u32,
    pub function: Bytes,
    pub params: Items<Bytes>,
    /// The number of the line of the sum.
    pub code_line: u32,
    /// The blanks in front of that line.
    pub indent: Bytes,
    /// The terms of the sum, as they are written.
    pub words: Items<Bytes>,
    /// The number of the line that names RETVAL in OUTPUT.
    pub output_line: u32,
}

// Whether a line is blanks, if any, and a word.
fn is_block_line(word: &[u8], text: &[u8]) -> bool
    ensures { result ≡ is_block_line word.now text.now }
{
    is_same(after_blanks(text), word)
}

// Whether each name is free.
fn are_free(names: &[Bytes]) -> bool
    ensures { result ≡ list_all is_free names.now }
{
    names.iter().all(|name| is_free(name.as_slice()))
}

// `f(int p, int q, ..)`, of one parameter or more.
fn read_interface(alloc: Global, text: &[u8]) -> Result<Option<Interface>, Memory>
    ensures { IfOk result (λ names. names ≡ interface_of text.now) }
{
    let (function, rest) = cut_run(ByteClass::Word, text);
    let Some(list) = strip_prefix(b"(int ", rest) else {
        return Ok(None);
    };
    let (params, rest) = read_chain(alloc, b", int ", list)?;
    if is_same(rest, b")") && is_free(function) && are_free(params.as_slice()) {
        Ok(Some(Interface {
            function: Bytes::from_slice(alloc, function)?,
            params,
        }))
    } else {
        Ok(None)
    }
}

// `RETVAL = T + T + ..;` after blanks, if any.
fn read_sum(alloc: Global, params: &[Bytes], text: &[u8]) -> Result<Option<Sum>, Memory>
    ensures { IfOk result (λ sum. sum ≡ sum_of params.now text.now) }
{
    let (indent, right) = cut_run(ByteClass::Blank, text);
    let Some(terms) = strip_prefix(b"RETVAL = ", right) else {
        return Ok(None);
    };
    let (words, rest) = read_chain(alloc, b" + ", terms)?;
    if is_same(rest, b";") && words.len() <= MOST_TERMS && are_terms(params, words.as_slice()) {
        Ok(Some(Sum {
            indent: Bytes::from_slice(alloc, indent)?,
            words,
        }))
    } else {
        Ok(None)
    }
}

// Whether each line is blanks alone.
fn are_empty(lines: &[Line]) -> bool
    ensures { result ≡ list_all (λ line. is_blank_line line.text) lines.now }
{
    lines.iter().all(|line| is_blank_line(line.text.as_slice()))
}

// Whether the lines around the names and the terms are those of the form.
fn is_frame(kind: &Line, code: &Line, output: &Line, retval: &Line, more: &[Line]) -> bool
    ensures { result
        ≡ is_frame kind.now.text code.now.text output.now.text retval.now.text more.now }
{
    is_same(kind.text.as_slice(), b"int")
        && is_block_line(b"CODE:", code.text.as_slice())
        && is_block_line(b"OUTPUT:", output.text.as_slice())
        && is_block_line(b"RETVAL", retval.text.as_slice())
        && are_empty(more)
}

// What the interface line and the line of the sum say.
fn read_lines(
    alloc: Global,
    interface: &Line,
    sum: &Line,
    output_line: u32,
) -> Result<Option<Paragraph>, Memory>
    ensures { IfOk result (λ paragraph. paragraph
        ≡ paragraph_with interface.now sum.now output_line) }
{
    let Some(names) = read_interface(alloc, interface.text.as_slice())? else {
        return Ok(None);
    };
    let Some(terms) = read_sum(alloc, names.params.as_slice(), sum.text.as_slice())? else {
        return Ok(None);
    };
    Ok(Some(Paragraph {
        line: interface.number,
        function: names.function,
        params: names.params,
        code_line: sum.number,
        indent: terms.indent,
        words: terms.words,
        output_line,
    }))
}

/// What a paragraph of the form says. None where the lines are of another form.
pub fn read_paragraph(alloc: Global, lines: &[Line]) -> Result<Option<Paragraph>, Memory>
    ensures { IfOk result (λ paragraph. paragraph ≡ paragraph_of lines.now) }
{
    match lines {
        [kind, interface, code, sum, output, retval, more @ ..] => {
            if !is_frame(kind, code, output, retval, more) {
                return Ok(None);
            }
            let paragraph = read_lines(alloc, interface, sum, retval.number)?;
            Ok(paragraph)
        }
        _ => Ok(None),
    }
}

/// Whether lines are a paragraph of the form: `int`; `f(int p, int q, ..)`; `CODE:`; `RETVAL = T +
/// T + ..;`; `OUTPUT:`; `RETVAL`; and empty lines. There are one or more parameters and 1 to 32
/// terms, which are parameters and decimal literals.
pub fn is_sum_xsub(alloc: Global, lines: &[Line]) -> Result<bool, Memory>
    ensures { IfOk result (λ is. is ≡ is_sum_paragraph lines.now) }
{
    let paragraph = read_paragraph(alloc, lines)?;
    Ok(paragraph.is_some())
}
