//! A typemap is read.
ghost use Rattle.std.specs.Prelude.{◌≡◌, [], IfOk};
ghost use Rattle.xs_base.specs.Reading.{Gives, fault_in};
ghost use Rattle.xs_typemap.specs.TypemapLaws.{IsDistinct};
ghost use Rattle.xs_typemap.specs.TypemapSteps as spec;
ghost use Rattle.xs_typemap.specs.TypemapText.{FollowsFormat};

use crate::lines::{Section, TypeEntry, entry_of, heading_of, is_passed_over, without_end_blanks};
use crate::typemap::{Code, Typemap};
use std::alloc::Global;
use xs_base::fault_codes::{BAD_TYPEMAP_LINE, CODE_BEFORE_KIND};
use xs_base::{
    ByteClass, Bytes, Fault, FileOf, Items, Line, Memory, Refuse, is_identifier, starts_with_class,
};

/// A kind whose code is being read: for which direction it is, and the lines so far.
#[derive(Debug, Drop)]
pub struct OpenKind {
    input: bool,
    name: Bytes,
    code: Code,
}

/// What was read of a typemap up to a line.
#[derive(Drop)]
pub struct Reading {
    held: Typemap,
    section: Section,
    kind: Option<OpenKind>,
}

/// Reads a typemap file or a typemap block. An entry or code that comes later replaces an earlier
/// one of the same type or kind.
///
/// | code | where |
/// |---|---|
/// | 201 | a line that is no type with its kind, or no name of a kind; on that line |
/// | 202 | a line of code with no name of a kind before it; on that line |
///
/// The format is that of perlxstypemap.
pub fn read_typemap(alloc: Global, lines: &[Line], file: FileOf) -> Result<Typemap, Refuse>
    ensures exact { Gives result (spec.typemap_of file lines.now) }
    ensures format { FollowsFormat file lines.now result }
    ensures distinct { IfOk result (λ held. IsDistinct held) }
{
    read(alloc, lines, file)
}

fn read(alloc: Global, lines: &[Line], file: FileOf) -> Result<Typemap, Refuse>
    ensures { Gives result (spec.typemap_of file lines.now) }
{
    let mut reading = Reading::new(alloc);
    for line in lines {
        reading = reading.take(alloc, file, line)?;
    }
    let Reading {
        held,
        section: _,
        kind: _,
    } = reading.close(alloc)?;
    Ok(held)
}

// A fault on a line.
fn fault_at(alloc: Global, file: FileOf, line: &Line, code: u16) -> Fault
    ensures { result ≡ fault_in file line.now.number code [] }
{
    Fault::bare(alloc, file, line.number, code)
}

impl Reading {
    // Before the first line.
    fn new(alloc: Global) -> Reading
        ensures { result ≡ spec.begun }
    {
        Reading {
            held: Typemap::new(alloc),
            section: Section::Types,
            kind: None,
        }
    }

    // Ends the kind that stands open.
    fn close(self, alloc: Global) -> Result<Reading, Memory>
        ensures { IfOk result (λ r. r ≡ spec.closed self) }
    {
        let Reading {
            mut held,
            section,
            kind,
        } = self;
        if let Some(OpenKind { input, name, code }) = kind {
            held.set_code(alloc, input, name.as_slice(), code)?;
        }
        Ok(Reading {
            held,
            section,
            kind: None,
        })
    }

    // Goes on by a line.
    #[tactic(auto, unfolding(crate::specs::TypemapSteps::step))]
    fn take(self, alloc: Global, file: FileOf, line: &Line) -> Result<Reading, Refuse>
        ensures { Gives result (spec.step file self line.now) }
    {
        if is_passed_over(line.text.as_slice()) {
            return Ok(self);
        }
        match heading_of(line.text.as_slice()) {
            Some(section) => self.begin_section(alloc, section),
            None => self.take_in_section(alloc, file, line),
        }
    }

    // Goes on by a heading.
    fn begin_section(self, alloc: Global, section: Section) -> Result<Reading, Refuse>
        ensures { Gives result (spec.under_heading section self) }
    {
        let mut reading = self.close(alloc)?;
        reading.section = section;
        Ok(reading)
    }

    // Goes on by a line of the section that it stands in.
    fn take_in_section(self, alloc: Global, file: FileOf, line: &Line) -> Result<Reading, Refuse>
        ensures { Gives result (spec.in_section file self.section self line.now) }
    {
        match self.section {
            Section::Types => self.take_entry(alloc, file, line),
            Section::Input => self.take_code(alloc, file, true, line),
            Section::Output => self.take_code(alloc, file, false, line),
        }
    }

    // Goes on by a line of the types.
    fn take_entry(self, alloc: Global, file: FileOf, line: &Line) -> Result<Reading, Refuse>
        ensures { Gives result (spec.entry_line file self line.now) }
    {
        match entry_of(alloc, line.text.as_slice())? {
            None => Err(Refuse::Fault(fault_at(alloc, file, line, BAD_TYPEMAP_LINE))),
            Some(TypeEntry { ctype, kind }) => {
                let mut reading = self;
                reading.held.set_type(alloc, ctype.as_slice(), kind)?;
                Ok(reading)
            }
        }
    }

    // Goes on by a line of code for one direction.
    #[tactic(auto, unfolding(crate::specs::TypemapSteps::code_line))]
    fn take_code(
        self,
        alloc: Global,
        file: FileOf,
        input: bool,
        line: &Line,
    ) -> Result<Reading, Refuse>
        ensures { Gives result (spec.code_line file input self line.now) }
    {
        if starts_with_class(ByteClass::Blank, line.text.as_slice()) {
            self.add_code_line(alloc, file, line)
        } else {
            self.begin_kind(alloc, file, input, line)
        }
    }

    // Adds a line to the code of the kind that stands open.
    fn add_code_line(self, alloc: Global, file: FileOf, line: &Line) -> Result<Reading, Refuse>
        ensures { Gives result (spec.code_read file line.now self self.kind) }
    {
        let Reading {
            held,
            section,
            kind,
        } = self;
        match kind {
            None => Err(Refuse::Fault(fault_at(alloc, file, line, CODE_BEFORE_KIND))),
            Some(open) => {
                let kind = Some(open.with_line(line.text.copy(alloc)?)?);
                Ok(Reading {
                    held,
                    section,
                    kind,
                })
            }
        }
    }

    // Begins a kind at the line of its name.
    fn begin_kind(
        self,
        alloc: Global,
        file: FileOf,
        input: bool,
        line: &Line,
    ) -> Result<Reading, Refuse>
        ensures { Gives result (spec.kind_line file input self line.now) }
    {
        let name = without_end_blanks(line.text.as_slice());
        if !is_identifier(name) {
            return Err(Refuse::Fault(fault_at(alloc, file, line, BAD_TYPEMAP_LINE)));
        }
        let mut reading = self.close(alloc)?;
        reading.kind = Some(OpenKind::new(alloc, file, input, line.number, name)?);
        Ok(reading)
    }
}

impl OpenKind {
    // A kind at the line of its name.
    fn new(
        alloc: Global,
        file: FileOf,
        input: bool,
        line: u32,
        name: &[u8],
    ) -> Result<OpenKind, Memory>
        ensures { IfOk result (λ k. k ≡ spec.opened file input line name.now) }
    {
        let name = Bytes::from_slice(alloc, name)?;
        let code = Code {
            file,
            line,
            lines: Items::new(alloc),
        };
        Ok(OpenKind { input, name, code })
    }

    // The kind with one line of code more.
    fn with_line(self, text: Bytes) -> Result<OpenKind, Memory>
        ensures { IfOk result (λ k. k ≡ spec.with_line text self) }
    {
        let mut kind = self;
        kind.code.lines.push(text)?;
        Ok(kind)
    }
}
