//! What was read of an XS file so far.
ghost use Rattle.std.specs.Prelude.{◌≡◌, OnOk};
ghost use Rattle.xs_base.specs.Reading.{Gives};
ghost use Rattle.xs_sections.specs.Steps as spec;

use crate::class::{LineClass, Region};
use crate::classing::{class_of, starts_paragraph};
use crate::sections::{ModuleNames, Part, PartBody, Sections};
use std::alloc::Global;
use std::mem;
use xs_base::fault_codes::{
    BAD_KEYWORD_VALUE, BAD_MODULE_LINE, KEYWORD_LEFT_OUT, NO_MODULE_LINE, OPEN_POD, OPEN_TYPEMAP,
    PREPROCESSOR_LINE, TOO_MANY_PARAGRAPHS,
};
use xs_base::{Bytes, Fault, FileOf, Items, Line, Memory, Refuse, is_before};

/// How many paragraphs an XS file may have.
const PARAGRAPHS: u32 = 4096;

/// What was read of an XS file up to a line.
#[derive(Debug, Drop)]
pub struct Reading {
    c_part: Items<Line>,
    parts: Items<Part>,
    modules: Items<ModuleNames>,
    /// The number of the last MODULE line, and 0 before the first.
    module_line: u32,
    /// The lines so far of the paragraph or typemap block that stands open.
    lines: Items<Line>,
    at: Region,
    /// The number of the line that began the POD that stands open.
    pod: Option<u32>,
    /// The number of the line that began the last typemap block.
    map_line: u32,
    /// How many paragraphs more may come.
    room: u32,
    /// The first fault so far.
    fault: Option<Fault>,
}

impl Reading {
    /// Before the first line.
    pub fn new(alloc: Global) -> Reading
        ensures { result ≡ spec.begun }
    {
        Reading {
            c_part: Items::new(alloc),
            parts: Items::new(alloc),
            modules: Items::new(alloc),
            module_line: 0,
            lines: Items::new(alloc),
            at: Region::CPart,
            pod: None,
            map_line: 0,
            room: PARAGRAPHS,
            fault: None,
        }
    }

    /// Reads one line more.
    #[tactic(auto, unfolding(crate::specs::Steps::step))]
    pub fn take(&mut self, alloc: Global, line: Line) -> Result<(), Memory>
        ensures { OnOk result (self.new ≡ spec.step self.old line) }
    {
        let class = class_of(alloc, self.pod.is_some(), &self.at, line.text.as_slice())?;
        let starts = starts_paragraph(&self.at, &class, line.text.as_slice());
        self.count(alloc, starts, line.number);
        self.act(alloc, class, line)
    }

    /// What was read, at the end of the file.
    pub fn finish(self, alloc: Global) -> Result<Sections, Refuse>
        ensures { Gives result (spec.finished self) }
    {
        let mut reading = self;
        reading.note_open(alloc);
        reading.close(alloc)?;
        let Reading {
            c_part,
            parts,
            modules,
            module_line,
            lines: _,
            at: _,
            pod: _,
            map_line: _,
            room: _,
            fault,
        } = reading;
        match fault {
            Some(fault) => Err(Refuse::Fault(fault)),
            None => Ok(Sections {
                c_part,
                modules,
                module_line,
                parts,
            }),
        }
    }

    /// Keeps the fault that is reported first.
    fn note(&mut self, fault: Fault)
        ensures { self.new ≡ spec.noted self.old fault }
    {
        let is_first = match &self.fault {
            None => true,
            Some(first) => is_before(&fault, first),
        };
        if is_first {
            self.fault = Some(fault);
        }
    }

    /// Counts the paragraph that begins at a line.
    fn count(&mut self, alloc: Global, starts: bool, line: u32)
        ensures { self.new ≡ spec.counted starts line self.old }
    {
        if starts {
            if self.room == 0 {
                self.note(Fault::bare(alloc, FileOf::Xs, line, TOO_MANY_PARAGRAPHS));
            } else {
                self.room -= 1;
            }
        }
    }

    /// Goes on by a line of this class.
    #[tactic(auto, unfolding(crate::specs::Steps::acted))]
    fn act(&mut self, alloc: Global, class: LineClass, line: Line) -> Result<(), Memory>
        ensures { OnOk result (self.new ≡ spec.acted class line self.old) }
    {
        match class {
            LineClass::PodBegin => self.pod = Some(line.number),
            LineClass::PodLine | LineClass::Comment => {}
            LineClass::PodEnd => self.pod = None,
            LineClass::C => self.c_part.push(line)?,
            LineClass::Directive => self.note(Fault::bare(
                alloc,
                FileOf::Xs,
                line.number,
                PREPROCESSOR_LINE,
            )),
            LineClass::Module(names) => self.begin_module(alloc, names, line.number)?,
            LineClass::BadModule => self.bad_module(alloc, line.number)?,
            LineClass::Outside => self.leave_gap(alloc)?,
            LineClass::Keyword => self.stay_at_head(alloc)?,
            LineClass::BadValue => {
                self.note(Fault::bare(alloc, FileOf::Xs, line.number, BAD_KEYWORD_VALUE));
                self.stay_at_head(alloc)?;
            }
            LineClass::LeftOut(word) => {
                self.note(Fault::new(FileOf::Xs, line.number, KEYWORD_LEFT_OUT, word));
                self.stay_at_head(alloc)?;
            }
            LineClass::MapBegin(end) => self.begin_map(alloc, end, line.number)?,
            LineClass::MapLine => self.lines.push(line)?,
            LineClass::MapEnd => self.end_map(alloc)?,
            LineClass::First => self.begin(alloc, line, Region::Body)?,
            LineClass::FirstOfBoot => self.begin(alloc, line, Region::Boot)?,
            LineClass::Further => self.go_on(line)?,
            LineClass::Blank => self.go_on_after_gap(line)?,
        }
        Ok(())
    }

    fn begin_module(&mut self, alloc: Global, names: ModuleNames, line: u32) -> Result<(), Memory>
        ensures { OnOk result (self.new ≡ spec.module_begun names line self.old) }
    {
        self.close(alloc)?;
        self.modules.push(names)?;
        self.module_line = line;
        self.at = Region::Between;
        Ok(())
    }

    fn bad_module(&mut self, alloc: Global, line: u32) -> Result<(), Memory>
        ensures { OnOk result (self.new ≡ spec.module_refused line self.old) }
    {
        self.note(Fault::bare(alloc, FileOf::Xs, line, BAD_MODULE_LINE));
        self.close(alloc)?;
        self.module_line = line;
        self.at = Region::Between;
        Ok(())
    }

    /// An empty line outside of all.
    fn leave_gap(&mut self, alloc: Global) -> Result<(), Memory>
        ensures { OnOk result (self.new ≡ spec.gap_left self.old) }
    {
        self.close(alloc)?;
        if matches!(self.at, Region::Head) {
            self.at = Region::HeadGap;
        }
        Ok(())
    }

    /// A file keyword.
    fn stay_at_head(&mut self, alloc: Global) -> Result<(), Memory>
        ensures { OnOk result (self.new ≡ spec.at_head self.old) }
    {
        self.close(alloc)?;
        self.at = Region::Head;
        Ok(())
    }

    fn begin_map(&mut self, alloc: Global, end: Bytes, line: u32) -> Result<(), Memory>
        ensures { OnOk result (self.new ≡ spec.map_begun end line self.old) }
    {
        self.close(alloc)?;
        self.map_line = line;
        self.at = Region::Map(end);
        Ok(())
    }

    fn end_map(&mut self, alloc: Global) -> Result<(), Memory>
        ensures { OnOk result (self.new ≡ spec.map_ended self.old) }
    {
        let lines = mem::replace(&mut self.lines, Items::new(alloc));
        self.put(self.map_line, PartBody::Map(lines))?;
        self.at = Region::Head;
        Ok(())
    }

    /// The first line of a paragraph.
    fn begin(&mut self, alloc: Global, line: Line, at: Region) -> Result<(), Memory>
        ensures { OnOk result (self.new ≡ spec.paragraph_begun line at self.old) }
    {
        self.close(alloc)?;
        self.lines.push(line)?;
        self.at = at;
        Ok(())
    }

    /// A further line of a paragraph that is not empty.
    fn go_on(&mut self, line: Line) -> Result<(), Memory>
        ensures { OnOk result (self.new ≡ spec.gone_on line self.old) }
    {
        self.lines.push(line)?;
        if !matches!(self.at, Region::Boot) {
            self.at = Region::Body;
        }
        Ok(())
    }

    /// An empty line of a paragraph.
    fn go_on_after_gap(&mut self, line: Line) -> Result<(), Memory>
        ensures { OnOk result (self.new ≡ spec.gone_on_empty line self.old) }
    {
        self.lines.push(line)?;
        if matches!(self.at, Region::Boot) {
            self.at = Region::Between;
        } else {
            self.at = Region::BodyGap;
        }
        Ok(())
    }

    /// Ends the paragraph that stands open, if one does.
    fn close(&mut self, alloc: Global) -> Result<(), Memory>
        ensures { OnOk result (self.new ≡ spec.closed self.old) }
    {
        let first = match self.lines.as_slice() {
            [] => return Ok(()),
            [first, ..] => first.number,
        };
        let lines = mem::replace(&mut self.lines, Items::new(alloc));
        self.put(first, PartBody::Para(lines))
    }

    /// Adds a part that begins at a line, after the last MODULE line.
    fn put(&mut self, line: u32, body: PartBody) -> Result<(), Memory>
        ensures { OnOk result (self.new ≡ spec.put_in line body self.old) }
    {
        let part = Part {
            module: self.modules.len().saturating_sub(1),
            line,
            body,
        };
        self.parts.push(part)
    }

    /// Notes what is missing or open at the end of the file.
    fn note_open(&mut self, alloc: Global)
        ensures { self.new ≡ spec.open_noted self.old }
    {
        self.note_module(alloc);
        self.note_pod(alloc);
        self.note_map(alloc);
    }

    fn note_module(&mut self, alloc: Global)
        ensures { self.new ≡ spec.module_noted self.old }
    {
        if matches!(self.at, Region::CPart) {
            self.note(Fault::bare(alloc, FileOf::Xs, 1, NO_MODULE_LINE));
        }
    }

    fn note_pod(&mut self, alloc: Global)
        ensures { self.new ≡ spec.pod_noted self.old }
    {
        if let Some(line) = self.pod {
            self.note(Fault::bare(alloc, FileOf::Xs, line, OPEN_POD));
        }
    }

    fn note_map(&mut self, alloc: Global)
        ensures { self.new ≡ spec.map_noted self.old }
    {
        if matches!(self.at, Region::Map(_)) {
            self.note(Fault::bare(alloc, FileOf::Xs, self.map_line, OPEN_TYPEMAP));
        }
    }
}
