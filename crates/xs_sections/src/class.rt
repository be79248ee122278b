//! What a line of an XS file is, and where it stands.
use crate::sections::ModuleNames;
use xs_base::Bytes;

/// What a line is. Each line of a file is one of these.
#[derive(Debug, Drop)]
pub enum LineClass {
    /// The first line of POD.
    PodBegin,
    /// A further line of POD, but for its last.
    PodLine,
    /// The `=cut` line of POD.
    PodEnd,
    /// A line of the C part.
    C,
    /// A comment of the XS part.
    Comment,
    /// A line of the XS part that the C preprocessor would read.
    Directive,
    /// A MODULE line, with its names.
    Module(ModuleNames),
    /// A line whose first word is MODULE, of no good form.
    BadModule,
    /// An empty line of the XS part that no paragraph holds.
    Outside,
    /// A file keyword with a good value, but for TYPEMAP.
    Keyword,
    /// A file keyword with a bad value.
    BadValue,
    /// A file keyword that is left out, with its word.
    LeftOut(Bytes),
    /// The line that begins a typemap block, with the block's end word.
    MapBegin(Bytes),
    /// A line of a typemap block.
    MapLine,
    /// The end word of a typemap block.
    MapEnd,
    /// The first line of a paragraph after its file keywords.
    First,
    /// The same of a BOOT paragraph.
    FirstOfBoot,
    /// A further line of a paragraph that is not empty.
    Further,
    /// An empty line of a paragraph.
    Blank,
}

/// Where a line stands: what the lines before it leave open.
#[derive(Debug, Drop)]
pub enum Region {
    /// In the C part: no MODULE line stands before.
    CPart,
    /// In the XS part, and in no paragraph.
    Between,
    /// At the head of a paragraph, right after a file keyword or a typemap block.
    Head,
    /// At the head of a paragraph, after an empty line.
    HeadGap,
    /// In a paragraph, after a line that is not empty.
    Body,
    /// In a paragraph, after an empty line.
    BodyGap,
    /// In a BOOT paragraph.
    Boot,
    /// In a typemap block with this end word.
    Map(Bytes),
}
