//! The codes of the faults of the input, and their texts.
ghost use Rattle.std.specs.Option.{option_copied};
ghost use Rattle.std.specs.Prelude.{◌≡◌, map};
ghost use Rattle.xs_base.specs.FaultTexts.{text_in, text_of};

// The XS file as a whole: its sections and its file keywords.
pub const FILE_TOO_LONG: u16 = 101;

pub const NO_MODULE_LINE: u16 = 102;

pub const BAD_MODULE_LINE: u16 = 103;

pub const PREPROCESSOR_LINE: u16 = 104;

pub const OPEN_POD: u16 = 105;

pub const OPEN_TYPEMAP: u16 = 106;

pub const TOO_MANY_PARAGRAPHS: u16 = 107;

pub const KEYWORD_LEFT_OUT: u16 = 108;

pub const BAD_KEYWORD_VALUE: u16 = 109;

// Typemap texts.
pub const BAD_TYPEMAP_LINE: u16 = 201;

pub const CODE_BEFORE_KIND: u16 = 202;

// Interface lines.
pub const NO_INTERFACE_LINE: u16 = 301;

pub const BAD_PARAMETER_LIST: u16 = 302;

pub const PARAMETER_TWICE: u16 = 303;

pub const TOO_MANY_PARAMETERS: u16 = 304;

pub const PARAMETER_WITHOUT_TYPE: u16 = 305;

pub const DECLARES_NO_PARAMETER: u16 = 306;

pub const DEFAULT_BEFORE_PLAIN: u16 = 307;

pub const LENGTH_OF_NO_TEXT: u16 = 308;

pub const TYPE_NOT_TAKEN: u16 = 309;

// Keywords of an XSUB.
pub const UNKNOWN_KEYWORD: u16 = 401;

pub const KEYWORD_OUT_OF_ORDER: u16 = 402;

pub const KEYWORD_TWICE: u16 = 403;

pub const OUTPUT_NAMES_NONE: u16 = 404;

pub const BAD_ALIAS_LINE: u16 = 405;

pub const BAD_CASE: u16 = 406;

pub const NAME_TWICE: u16 = 407;

pub const BAD_OVERLOAD_LINE: u16 = 408;

// Types and their typemap entries.
pub const NO_TYPEMAP_ENTRY: u16 = 501;

pub const FLOATING_POINT: u16 = 502;

pub const KIND_LEFT_OUT: u16 = 503;

pub const NO_CODE_FOR_DIRECTION: u16 = 504;

// Templates of typemap entries.
pub const TEMPLATE_NOT_TAKEN: u16 = 601;

// The tokens and the grammar of C.
pub const STRAY_BYTE: u16 = 701;

pub const OPEN_COMMENT_OR_TEXT: u16 = 702;

pub const LITERAL_TOO_WIDE: u16 = 703;

pub const NO_READING_HERE: u16 = 704;

pub const NESTED_TOO_DEEP: u16 = 705;

pub const DEFINE_NOT_TAKEN: u16 = 706;

pub const FLOATING_POINT_IN_C: u16 = 707;

// The names and types of C.
pub const UNKNOWN_NAME: u16 = 801;

pub const UNKNOWN_FUNCTION: u16 = 802;

pub const TYPES_DIFFER: u16 = 803;

pub const DECLARED_TWICE: u16 = 804;

pub const WRONG_NUMBER_OF_ARGUMENTS: u16 = 805;

pub const NOT_ASSIGNABLE: u16 = 806;

pub const WORD_NOT_ALLOWED: u16 = 807;

// The paths through a function.
pub const LEAKS_AT_END: u16 = 901;

pub const LEAKS_AT_CROAK: u16 = 902;

pub const USED_AFTER_GIVE_UP: u16 = 903;

pub const STALE_BORROW: u16 = 904;

pub const JOINS_DIFFER: u16 = 905;

pub const LOOP_CHANGES_OWNER: u16 = 906;

pub const PUSHES_UNHELD: u16 = 907;

pub const RETVAL_STATE: u16 = 908;

pub const SCOPE_NOT_CLOSED: u16 = 909;

pub const NOT_SET: u16 = 910;

// The script of calls.
pub const BAD_SCRIPT_LINE: u16 = 951;

pub const UNKNOWN_VARIABLE: u16 = 952;

pub const NAMED_TWICE_IN_SCRIPT: u16 = 953;

pub const NUMBER_OUT_OF_RANGE: u16 = 954;

pub const VALUE_TOO_DEEP: u16 = 955;

pub const TOO_MANY_IN_SCRIPT: u16 = 956;

// Forms that are not built yet.
pub const NOT_BUILT: u16 = 999;

/// Each code with its text, in ascending order of the codes.
pub const FAULT_TEXTS: [(u16, &str); 64] = [
    (FILE_TOO_LONG, "file too long"),
    (NO_MODULE_LINE, "no MODULE line"),
    (BAD_MODULE_LINE, "bad MODULE line"),
    (PREPROCESSOR_LINE, "preprocessor line not taken"),
    (OPEN_POD, "open POD"),
    (OPEN_TYPEMAP, "open TYPEMAP block"),
    (TOO_MANY_PARAGRAPHS, "too many paragraphs"),
    (KEYWORD_LEFT_OUT, "keyword left out"),
    (BAD_KEYWORD_VALUE, "bad keyword value"),
    (BAD_TYPEMAP_LINE, "bad typemap line"),
    (CODE_BEFORE_KIND, "code before a kind"),
    (NO_INTERFACE_LINE, "no interface line"),
    (BAD_PARAMETER_LIST, "bad parameter list"),
    (PARAMETER_TWICE, "parameter twice"),
    (TOO_MANY_PARAMETERS, "too many parameters"),
    (PARAMETER_WITHOUT_TYPE, "parameter without type"),
    (DECLARES_NO_PARAMETER, "declares no parameter"),
    (DEFAULT_BEFORE_PLAIN, "default before a plain parameter"),
    (LENGTH_OF_NO_TEXT, "length of no text parameter"),
    (TYPE_NOT_TAKEN, "type not taken"),
    (UNKNOWN_KEYWORD, "unknown keyword"),
    (KEYWORD_OUT_OF_ORDER, "keyword out of order"),
    (KEYWORD_TWICE, "keyword twice"),
    (OUTPUT_NAMES_NONE, "OUTPUT names no parameter"),
    (BAD_ALIAS_LINE, "bad ALIAS line"),
    (BAD_CASE, "bad CASE"),
    (NAME_TWICE, "name twice"),
    (BAD_OVERLOAD_LINE, "bad OVERLOAD line"),
    (NO_TYPEMAP_ENTRY, "no typemap entry"),
    (FLOATING_POINT, "floating point"),
    (KIND_LEFT_OUT, "kind left out"),
    (NO_CODE_FOR_DIRECTION, "kind has no code for this direction"),
    (TEMPLATE_NOT_TAKEN, "template form not taken"),
    (STRAY_BYTE, "stray byte"),
    (OPEN_COMMENT_OR_TEXT, "open comment or text"),
    (LITERAL_TOO_WIDE, "literal too wide"),
    (NO_READING_HERE, "no reading here"),
    (NESTED_TOO_DEEP, "nested too deep"),
    (DEFINE_NOT_TAKEN, "define not taken"),
    (FLOATING_POINT_IN_C, "floating point in C"),
    (UNKNOWN_NAME, "unknown name"),
    (UNKNOWN_FUNCTION, "unknown function"),
    (TYPES_DIFFER, "types differ"),
    (DECLARED_TWICE, "declared twice"),
    (WRONG_NUMBER_OF_ARGUMENTS, "wrong number of arguments"),
    (NOT_ASSIGNABLE, "not assignable"),
    (WORD_NOT_ALLOWED, "word not allowed here"),
    (LEAKS_AT_END, "leaks at end"),
    (LEAKS_AT_CROAK, "leaks at croak"),
    (USED_AFTER_GIVE_UP, "used after give-up"),
    (STALE_BORROW, "stale borrow"),
    (JOINS_DIFFER, "joins differ"),
    (LOOP_CHANGES_OWNER, "loop changes owner"),
    (PUSHES_UNHELD, "pushes unheld"),
    (RETVAL_STATE, "state of RETVAL does not fit its kind"),
    (SCOPE_NOT_CLOSED, "scope not closed"),
    (NOT_SET, "not set"),
    (BAD_SCRIPT_LINE, "bad script line"),
    (UNKNOWN_VARIABLE, "unknown variable"),
    (NAMED_TWICE_IN_SCRIPT, "variable or sub twice"),
    (NUMBER_OUT_OF_RANGE, "number out of range"),
    (VALUE_TOO_DEEP, "value too deep"),
    (TOO_MANY_IN_SCRIPT, "too many"),
    (NOT_BUILT, "form not built yet"),
];

// The text that rows list for a code.
fn text_in(rows: &[(u16, &'static str)], code: u16) -> Option<&'static str>
    ensures { option_copied result ≡ text_in (map (λ row. (row.0, row.1.now)) rows.now) code }
{
    for row in rows {
        if row.0 == code {
            return Some(row.1);
        }
    }
    None
}

/// The text of a code: the one that the table lists for it, and None where it lists none.
pub fn fault_text(code: u16) -> Option<&'static str>
    ensures { option_copied result ≡ text_of code }
{
    text_in(&FAULT_TEXTS, code)
}
