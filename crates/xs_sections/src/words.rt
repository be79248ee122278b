//! The words of perlxs outside of XSUBs, and those of the C preprocessor that are refused there.
//! Code and definitions read them here.

/// The words of a MODULE line.
pub const MODULE: &str = "MODULE";

pub const PACKAGE: &str = "PACKAGE";

pub const PREFIX: &str = "PREFIX";

/// The file keywords that switch something on or off, and their values.
pub const SWITCHES: [&str; 2] = ["PROTOTYPES", "VERSIONCHECK"];

pub const SWITCH_VALUES: [&str; 2] = ["ENABLE", "DISABLE"];

/// The file keyword whose value is any word.
pub const REQUIRE: &str = "REQUIRE";

/// The file keyword on overloaded operators, and its values.
pub const FALLBACK: &str = "FALLBACK";

pub const FALLBACK_VALUES: [&str; 3] = ["TRUE", "FALSE", "UNDEF"];

/// The file keyword that begins a typemap block.
pub const TYPEMAP: &str = "TYPEMAP";

/// What begins a BOOT paragraph.
pub const BOOT: &str = "BOOT:";

/// The file keywords that are left out.
pub const LEFT_OUT: [&str; 8] = [
    "INCLUDE",
    "INCLUDE_COMMAND",
    "INTERFACE",
    "INTERFACE_MACRO",
    "SCOPE",
    "ATTRS",
    "EXPORT_XSUB_SYMBOLS",
    "SETMAGIC",
];

/// The words that alone make a line one of the preprocessor.
pub const DIRECTIVES: [&str; 11] = [
    "define", "undef", "if", "ifdef", "ifndef", "else", "elif", "endif", "error", "pragma",
    "warning",
];
