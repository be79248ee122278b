//! What the compiler knows of an XS file.
use xs_base::{Bytes, Items, Line};

/// What the compiler knows of an XS file.
#[derive(Debug, Drop)]
pub struct Module {
    /// The name on the MODULE line, after which the boot function is named.
    pub boot: Bytes,
    /// The number of the MODULE line.
    pub boot_line: u32,
    /// The lines of the C part, without POD.
    pub c_part: Items<Line>,
    pub xsubs: Items<Xsub>,
}

/// A C function that Perl is to call.
#[derive(Debug, Drop)]
pub struct Xsub {
    /// The number of the interface line.
    pub line: u32,
    /// The name under which Perl calls it: the package, `::` and the name.
    pub full: Bytes,
    pub c_name: Bytes,
    /// The name of the glue function.
    pub glue: Bytes,
    pub params: Items<Param>,
    /// The number of the line of the sum, which is the author's code.
    pub code_line: u32,
    /// The blanks in front of that line.
    pub indent: Bytes,
    /// The terms whose sum RETVAL gets.
    pub sum: Items<Term>,
    /// The number of the line that names RETVAL in OUTPUT.
    pub output_line: u32,
}

/// A parameter of type `int`.
#[derive(Debug, Drop)]
pub struct Param {
    pub name: Bytes,
    pub line: u32,
}

/// A term of a sum.
#[derive(Clone, Copy, Debug, PartialEq, Eq)]
pub enum Term {
    /// The parameter at this place, counted from 0.
    Parameter(u32),
    /// A decimal literal, at most 2^31 - 1.
    Literal(u32),
}
