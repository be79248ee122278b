//! Code is cut into the pieces of a template.
ghost use Rattle.std.specs.List.{flat_map};
ghost use Rattle.std.specs.Prelude.{◌≡◌, ◌++◌, ◌∷◌, [], IfOk, OnOk, true};
ghost use Rattle.xs_base.specs.Reading.{Gives};
ghost use Rattle.xs_template.specs.TemplateSteps as spec;
ghost use Rattle.xs_template.specs.TemplateText.{FollowsRules};
ghost use Rattle.xs_template.specs.Variables.{variable_named};

use crate::template::{Piece, Template};
use crate::variables::{Variable, variable_named};
use std::alloc::Global;
use std::mem;
use xs_base::fault_codes::TEMPLATE_NOT_TAKEN;
use xs_base::{Bytes, Fault, Items, Memory, Refuse, is_word_byte};
use xs_typemap::Code;

/// What the next byte of a text belongs to.
#[derive(Clone, Copy, Debug, PartialEq, Eq)]
pub enum Mode {
    /// The text.
    Plain,
    /// A backslash right before it.
    Backslash,
    /// A name after `$`.
    Dollar,
    /// A name after `${`.
    Braced,
    /// Nothing: the text is no template.
    Refused,
}

/// What was cut of a text so far.
#[derive(Debug, Drop)]
pub struct Cutting {
    pieces: Items<Piece>,
    /// The text since the last variable.
    text: Bytes,
    mode: Mode,
    /// The name so far; or the word at fault, where the text is no template.
    name: Bytes,
}

/// Cuts the code of a kind into a template. `$name` and `${name}` are variables, where the whole
/// name counts; `\"`, `\\` and `\$` are the byte after the backslash. Any other `$` is refused with
/// 601 on the line of the kind's name: the word is `${` before a brace, and else `$` and the name.
pub fn check_template(alloc: Global, c: &Code) -> Result<Template, Refuse>
    ensures exact { Gives result (spec.template_of c.now) }
    ensures rules { FollowsRules c.now result }
{
    cut_code(alloc, c)
}

fn cut_code(alloc: Global, c: &Code) -> Result<Template, Refuse>
    ensures { Gives result (spec.template_of c.now) }
{
    let text = text_of(alloc, c.lines.as_slice())?;
    let mut cutting = cut(alloc, text.as_slice())?;
    cutting.end(alloc)?;
    cutting.finish(alloc, c)
}

// The lines of code as one text.
#[tactic(auto, using(std::proofs::Common::append_assoc))]
fn text_of(alloc: Global, lines: &[Bytes]) -> Result<Bytes, Memory>
    ensures { IfOk result (λ text. text ≡ spec.text_of lines.now) }
{
    let mut text = Bytes::new(alloc);
    if let [first, more @ ..] = lines {
        text.append(first.as_slice())?;
        text.append(after_each_end(alloc, more)?.as_slice())?;
    }
    Ok(text)
}

// Lines with a line end in front of each.
#[tactic(auto, using(std::proofs::Common::append_assoc))]
fn after_each_end(alloc: Global, lines: &[Bytes]) -> Result<Bytes, Memory>
    ensures { IfOk result (λ text. text ≡ flat_map (λ line. (10 ∷ []) ++ line) lines.now) }
{
    let mut text = Bytes::new(alloc);
    for line in lines {
        text.append(b"\n")?;
        text.append(line.as_slice())?;
    }
    Ok(text)
}

// How a text is cut, as far as it goes.
fn cut(alloc: Global, text: &[u8]) -> Result<Cutting, Memory>
    ensures { IfOk result (λ s. s ≡ spec.cut_from spec.begun text.now) }
{
    let mut cutting = Cutting {
        pieces: Items::new(alloc),
        text: Bytes::new(alloc),
        mode: Mode::Plain,
        name: Bytes::new(alloc),
    };
    for byte in text {
        cutting.take(alloc, *byte)?;
    }
    Ok(cutting)
}

// Whether a byte loses a backslash before it.
fn is_escaped(b: u8) -> bool
    ensures { result ≡ spec.is_escaped b }
{
    b == b'"' || (b == b'\\' || b == b'$')
}

impl Cutting {
    // Goes on by a byte.
    fn take(&mut self, alloc: Global, b: u8) -> Result<(), Memory>
        ensures { OnOk result (self.new ≡ spec.step self.old b) }
    {
        match self.mode {
            Mode::Plain => self.plain_byte(alloc, b),
            Mode::Backslash => self.escaped_byte(b),
            Mode::Dollar => self.dollar_byte(alloc, b),
            Mode::Braced => self.braced_byte(alloc, b),
            Mode::Refused => Ok(()),
        }
    }

    // Adds a byte to the text.
    fn add_byte(&mut self, b: u8) -> Result<(), Memory>
        ensures { OnOk result (self.new ≡ spec.with_byte b self.old) }
    {
        self.text.append(&[b])?;
        self.mode = Mode::Plain;
        Ok(())
    }

    // A byte outside of all names.
    fn plain_byte(&mut self, alloc: Global, b: u8) -> Result<(), Memory>
        ensures { OnOk result (self.new ≡ spec.plain_byte b self.old) }
    {
        if b == b'$' {
            self.name = Bytes::new(alloc);
            self.mode = Mode::Dollar;
            Ok(())
        } else if b == b'\\' {
            self.mode = Mode::Backslash;
            Ok(())
        } else {
            self.add_byte(b)
        }
    }

    // The byte after a backslash.
    fn escaped_byte(&mut self, b: u8) -> Result<(), Memory>
        ensures { OnOk result (self.new ≡ spec.escaped_byte b self.old) }
    {
        if is_escaped(b) {
            self.add_byte(b)
        } else {
            self.add_byte(b'\\')?;
            self.add_byte(b)
        }
    }

    // A byte of a name.
    fn add_letter(&mut self, b: u8) -> Result<(), Memory>
        ensures { OnOk result (self.new ≡ spec.with_letter b self.old) }
    {
        self.name.append(&[b])
    }

    // A byte after `$` and a part of a name.
    #[tactic(auto, unfolding(crate::specs::TemplateSteps::dollar_byte))]
    fn dollar_byte(&mut self, alloc: Global, b: u8) -> Result<(), Memory>
        ensures { OnOk result (self.new ≡ spec.dollar_byte b self.old) }
    {
        if is_word_byte(b) {
            self.add_letter(b)
        } else if b == b'{' && self.has_no_name() {
            self.mode = Mode::Braced;
            Ok(())
        } else {
            self.after_name(alloc, b)
        }
    }

    fn has_no_name(&self) -> bool
        ensures { result ≡ spec.is_no_name self.now.name }
    {
        match self.name.as_slice() {
            [] => true,
            [_, ..] => false,
        }
    }

    // A byte after a whole name, without braces.
    fn after_name(&mut self, alloc: Global, b: u8) -> Result<(), Memory>
        ensures { OnOk result (self.new
            ≡ spec.after_name (variable_named self.old.name) b self.old) }
    {
        match variable_named(self.name.as_slice()) {
            Some(variable) => {
                self.add_variable(alloc, variable)?;
                self.plain_byte(alloc, b)
            }
            None => self.refuse_name(alloc),
        }
    }

    // A byte after `${` and a part of a name.
    #[tactic(auto, unfolding(crate::specs::TemplateSteps::braced_byte))]
    fn braced_byte(&mut self, alloc: Global, b: u8) -> Result<(), Memory>
        ensures { OnOk result (self.new ≡ spec.braced_byte b self.old) }
    {
        if is_word_byte(b) {
            self.add_letter(b)
        } else if b == b'}' {
            self.close(alloc)
        } else {
            self.refuse_brace(alloc)
        }
    }

    // The closing brace after a whole name.
    fn close(&mut self, alloc: Global) -> Result<(), Memory>
        ensures { OnOk result (self.new
            ≡ spec.closing (variable_named self.old.name) self.old) }
    {
        match variable_named(self.name.as_slice()) {
            Some(variable) => self.add_variable(alloc, variable),
            None => self.refuse_brace(alloc),
        }
    }

    // The end of the text.
    fn end(&mut self, alloc: Global) -> Result<(), Memory>
        ensures { OnOk result (self.new ≡ spec.ended self.old) }
    {
        match self.mode {
            Mode::Plain => Ok(()),
            Mode::Backslash => self.add_byte(b'\\'),
            Mode::Dollar => self.end_name(alloc),
            Mode::Braced => self.refuse_brace(alloc),
            Mode::Refused => Ok(()),
        }
    }

    // The end of a name without braces, at the end of the text.
    fn end_name(&mut self, alloc: Global) -> Result<(), Memory>
        ensures { OnOk result (self.new
            ≡ spec.name_ended (variable_named self.old.name) self.old) }
    {
        match variable_named(self.name.as_slice()) {
            Some(variable) => self.add_variable(alloc, variable),
            None => self.refuse_name(alloc),
        }
    }

    // Refuses a name that is no variable.
    fn refuse_name(&mut self, alloc: Global) -> Result<(), Memory>
        ensures { OnOk result (self.new ≡ spec.refused (spec.dollar_word self.old.name) self.old) }
    {
        let mut word = Bytes::from_slice(alloc, b"$")?;
        word.append(self.name.as_slice())?;
        self.name = word;
        self.mode = Mode::Refused;
        Ok(())
    }

    // Refuses what stands after `${`.
    fn refuse_brace(&mut self, alloc: Global) -> Result<(), Memory>
        ensures { OnOk result (self.new ≡ spec.refused spec.braced_word self.old) }
    {
        self.name = Bytes::from_slice(alloc, b"${")?;
        self.mode = Mode::Refused;
        Ok(())
    }

    // Makes a piece of the text so far, where there is any.
    fn add_text(&mut self, alloc: Global) -> Result<(), Memory>
        ensures pieces { OnOk result (self.new.pieces
            ≡ spec.with_text self.old.text self.old.pieces) }
        ensures text { OnOk result (self.new.text ≡ []) }
        ensures mode { OnOk result (self.new.mode ≡ self.old.mode) }
        ensures name { OnOk result (self.new.name ≡ self.old.name) }
    {
        let text = mem::replace(&mut self.text, Bytes::new(alloc));
        if !text.is_empty() {
            self.pieces.push(Piece::Text(text))?;
        }
        Ok(())
    }

    // Adds a variable, after the text before it.
    fn add_variable(&mut self, alloc: Global, variable: Variable) -> Result<(), Memory>
        ensures { OnOk result (self.new ≡ spec.with_variable variable self.old) }
    {
        self.add_text(alloc)?;
        self.pieces.push(Piece::Named(variable))?;
        self.name = Bytes::new(alloc);
        self.mode = Mode::Plain;
        Ok(())
    }

    // The template, or the fault on the line of the kind's name.
    fn finish(self, alloc: Global, c: &Code) -> Result<Template, Refuse>
        ensures { Gives result (spec.finished c.now self) }
    {
        if matches!(self.mode, Mode::Refused) {
            return Err(Refuse::Fault(Fault::new(c.file, c.line, TEMPLATE_NOT_TAKEN, self.name)));
        }
        let mut cutting = self;
        cutting.add_text(alloc)?;
        Ok(Template::new(cutting.pieces))
    }
}
