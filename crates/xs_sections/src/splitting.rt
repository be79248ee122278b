//! An XS file is split.
ghost use Rattle.std.specs.Prelude.{◌-◌, ◌^◌, ◌<◌, All, IfOk, length};
ghost use Rattle.xs_base.specs.Lines.{lines_of};
ghost use Rattle.xs_base.specs.Reading.{Gives};
ghost use Rattle.xs_sections.specs.Classes.{tags_of};
ghost use Rattle.xs_sections.specs.Cut.{split_of};
ghost use Rattle.xs_sections.specs.SectionFaults.{faults_of};
ghost use Rattle.xs_sections.specs.Laws.{HoldsEachLine, IsOnlySplit, IsPart, ReportsFirst, StandsIn};

use crate::section_reading::Reading;
use crate::sections::Sections;
use std::alloc::Global;
use xs_base::{Bytes, Refuse, lines};

/// Splits an XS file into its C part, and after the first MODULE line into paragraphs and typemap
/// blocks. POD goes out, in the XS part comments too, and file keywords are removed from the
/// heads of paragraphs.
///
/// Faults, the one on the least line first, and on one line the one with the least code:
///
/// | code | where |
/// |---|---|
/// | 102 | no MODULE line; on line 1 |
/// | 103 | a line whose first word is MODULE and that is not `MODULE = NAME`, maybe `PACKAGE =
/// NAME`, maybe `PREFIX = WORD` |
/// | 104 | a line of the XS part that the C preprocessor would read |
/// | 105 | POD without `=cut`; on its first line |
/// | 106 | a typemap block without its end word; on its TYPEMAP line |
/// | 107 | the first line of the 4,097th paragraph |
/// | 108 | a file keyword that is left out; its word is the fault's word |
/// | 109 | a file keyword with a value that it can not have |
///
/// The rules are those of perlxs. What this project's profile adds: lines that the preprocessor
/// would read are refused in the XS part, some file keywords are left out, and a file has 4,096
/// paragraphs at most.
pub fn split(alloc: Global, src: &Bytes) -> Result<Sections, Refuse>
    requires { length src.now < 2 ^ 32 - 1 }
    ensures exact { Gives result (split_of src.now) }

    // Each line of the file, with its number and in order, stands where it belongs by its class.
    ensures lines { IfOk result (λ s. HoldsEachLine (lines_of src.now) s) }
    ensures split { IfOk result (λ s. IsOnlySplit (lines_of src.now) s) }
    ensures stands { IfOk result (λ s. StandsIn (lines_of src.now) s) }
    ensures parts { IfOk result (λ s. All IsPart s.parts) }
    ensures first { ReportsFirst (faults_of (tags_of (lines_of src.now))) result }
{
    read(alloc, src)
}

fn read(alloc: Global, src: &Bytes) -> Result<Sections, Refuse>
    requires { length src.now < 2 ^ 32 - 1 }
    ensures { Gives result (split_of src.now) }
{
    let mut reading = Reading::new(alloc);
    for line in lines(alloc, src)?.into_vec() {
        reading.take(alloc, line)?;
    }
    reading.finish(alloc)
}
