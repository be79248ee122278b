//! What an XS file is split into.
ghost use Rattle.std.specs.Prelude.{◌≡◌};
ghost use Rattle.xs_sections.specs.Cut as spec;

use xs_base::{Bytes, Items, Line};

/// The names that a MODULE line sets.
#[derive(Debug, Drop)]
pub struct ModuleNames {
    pub module: Bytes,
    /// Empty without PACKAGE.
    pub package: Bytes,
    /// Empty without PREFIX.
    pub prefix: Bytes,
}

/// A paragraph or a typemap block.
#[derive(Debug, Drop)]
pub struct Part {
    /// The place of the MODULE line before it among the MODULE lines of the file, counted from 0.
    pub module: usize,
    /// The number of the line that begins it: the first line of a paragraph after its file
    /// keywords, or the line `TYPEMAP:` of a block.
    pub line: u32,
    pub body: PartBody,
}

/// The lines of a part.
#[derive(Debug, Drop)]
pub enum PartBody {
    /// A paragraph, without the file keywords at its head and without comments, and not empty: a
    /// BOOT paragraph or an XSUB.
    Para(Items<Line>),
    /// A typemap block, without its first line and its end word.
    Map(Items<Line>),
}

/// An XS file, split.
#[derive(Debug, Drop)]
pub struct Sections {
    /// The lines before the first MODULE line, without POD.
    pub c_part: Items<Line>,
    /// The names of each MODULE line, in order.
    pub modules: Items<ModuleNames>,
    /// The number of the last MODULE line.
    pub module_line: u32,
    /// The paragraphs and typemap blocks, in order.
    pub parts: Items<Part>,
}

impl Sections {
    /// The name of the last MODULE line, after which the boot function is named.
    pub fn last_module(&self) -> &[u8]
        ensures { result.now ≡ (spec.last_names self.now).module }
    {
        match self.modules.as_slice().last() {
            None => b"".as_slice(),
            Some(names) => names.module.as_slice(),
        }
    }

    /// The package of a part: that of the MODULE line before it, and empty without PACKAGE.
    pub fn package_of(&self, part: &Part) -> &[u8]
        ensures { result.now ≡ (spec.names_of self.now part.now).package }
    {
        match self.modules.get(part.module) {
            None => b"".as_slice(),
            Some(names) => names.package.as_slice(),
        }
    }

    /// The prefix of a part, which Perl names go without: empty without PREFIX.
    pub fn prefix_of(&self, part: &Part) -> &[u8]
        ensures { result.now ≡ (spec.names_of self.now part.now).prefix }
    {
        match self.modules.get(part.module) {
            None => b"".as_slice(),
            Some(names) => names.prefix.as_slice(),
        }
    }
}
