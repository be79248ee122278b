//! An XS file is split into its C part, module lines, paragraphs and typemap blocks.
#![tactic(auto)]

mod class;
mod classing;
mod keywords;
mod marks;
mod module_line;
mod section_reading;
mod sections;
mod splitting;
mod words;

pub use sections::{ModuleNames, Part, PartBody, Sections};
pub use splitting::split;
