//! Lines of C text that begin with `#`.
ghost use Rattle.std.specs.Prelude.{◌≡◌, ◌<◌, ◌≤◌, codes, IfOk, length, true};
ghost use Rattle.std.specs.Str.{bytes_eq};
ghost use Rattle.xs_base.specs.Readers.{head_is};
ghost use Rattle.xs_base.specs.Scanning.{is_ascii_digit};
ghost use Rattle.xs_ctok.specs.Directives as spec;
ghost use Rattle.xs_ctok.specs.declared.directives.Gap.TheVariants as gap;
ghost use Rattle.xs_ctok.specs.FrontSizes.{Fits};

use crate::front::Front;
use crate::numerals::{NumberFront, number_front};
use crate::token::TokKind;
use crate::words::is_reserved;
use std::alloc::Global;
use xs_base::fault_codes::{DEFINE_NOT_TAKEN, LITERAL_TOO_WIDE, STRAY_BYTE};
use xs_base::{
    ByteClass, Bytes, Memory, after_blanks, begins_word, cut_run, is_blank, starts_with,
    starts_with_class,
};

/// What is open where only blanks and comments may stand (C11 6.4.9).
#[derive(Clone, Copy, Debug, PartialEq, Eq)]
pub enum Gap {
    /// Nothing.
    Between,
    /// A comment, before the `*` of its `/*`.
    Opening,
    /// A comment.
    Inside,
    /// A comment, after a `*` in it.
    Star,
}

fn after_star(b: u8) -> Gap
    ensures { result ≡ spec.after_star b }
{
    if b == b'/' {
        Gap::Between
    } else if b == b'*' {
        Gap::Star
    } else {
        Gap::Inside
    }
}

fn begun_gap(b: u8, more: &[u8]) -> Option<Gap>
    ensures { result ≡ spec.begun_gap b more.now }
{
    if is_blank(b) {
        Some(Gap::Between)
    } else if b == b'/' && starts_with(b"*", more) {
        Some(Gap::Opening)
    } else {
        None
    }
}

// What is open after a byte that a blank or a comment has there, with these bytes after it.
fn gap_step(so_far: Gap, b: u8, more: &[u8]) -> Option<Gap>
    ensures { result ≡ spec.gap_step so_far b more.now }
{
    match so_far {
        Gap::Between => begun_gap(b, more),
        Gap::Opening => Some(Gap::Inside),
        Gap::Inside => {
            if b == b'*' {
                Some(Gap::Star)
            } else {
                Some(Gap::Inside)
            }
        }
        Gap::Star => Some(after_star(b)),
    }
}

// What stands after the blanks and the comments in front.
fn after_gap(text: &[u8]) -> &[u8]
    ensures value { result.now ≡ spec.after_gap gap.Between text.now }
    ensures within { length result.now ≤ length text.now }
{
    let mut so_far = Gap::Between;
    let mut rest = text;
    while let [b, more @ ..] = rest {
        let Some(next) = gap_step(so_far, *b, more) else {
            return rest;
        };
        so_far = next;
        rest = more;
    }
    rest
}

// Whether only blanks and comments stand up to the end of the line.
#[tactic(auto, unfolding(crate::specs::Directives::is_over))]
fn is_over(text: &[u8]) -> bool
    ensures { result ≡ spec.is_over text.now }
{
    let rest = after_gap(text);
    rest.is_empty() || starts_with(b"//", rest)
}

fn is_same(a: &[u8], b: &[u8]) -> bool
    ensures { result ≡ bytes_eq a.now b.now }
{
    a == b
}

// The name of a `#define`: a word that begins with no digit and is not reserved.
#[tactic(auto, unfolding(crate::specs::Directives::may_define))]
fn may_define(name: &[u8]) -> bool
    ensures { result ≡ spec.may_define name.now }
{
    match name {
        [first, ..] => begins_word(*first) && !is_reserved(name),
        [] => false,
    }
}

// The code of the fault, where a `#define` has this one in the place of its integer.
fn define_fault(code: u16) -> u16
    ensures { result ≡ spec.define_fault code }
{
    if code == LITERAL_TOO_WIDE {
        LITERAL_TOO_WIDE
    } else {
        DEFINE_NOT_TAKEN
    }
}

// A `#define` of this name, of which these bytes are left from its integer on.
fn integer_define(alloc: Global, whole: &[u8], name: &[u8], number: &[u8]) -> Result<Front, Memory>
    requires within { length number.now < length whole.now }
    requires digit { head_is is_ascii_digit number.now ≡ true }
    ensures value { IfOk result (λ front. front
        ≡ spec.integer_define whole.now name.now number.now) }
    ensures within { IfOk result (λ front. Fits front (length whole.now)) }
{
    match number_front(number) {
        NumberFront::Refused(code) => Ok(Front::Refused(define_fault(code))),
        NumberFront::Integer(literal, len) => {
            if is_over(number.split_at(len).1) {
                let kind = TokKind::Define(Bytes::from_slice(alloc, name)?, literal);
                Ok(Front::Piece(kind, whole.len() - number.len() + len))
            } else {
                Ok(Front::Refused(DEFINE_NOT_TAKEN))
            }
        }
    }
}

// A `#define` of a name, with these bytes after the name.
fn valued_define(alloc: Global, whole: &[u8], name: &[u8], rest: &[u8]) -> Result<Front, Memory>
    requires { length rest.now < length whole.now }
    ensures value { IfOk result (λ front. front ≡ spec.valued_define whole.now name.now rest.now) }
    ensures within { IfOk result (λ front. Fits front (length whole.now)) }
{
    let number = after_gap(rest);
    if number.len() < rest.len() && starts_with_class(ByteClass::Digit, number) {
        integer_define(alloc, whole, name, number)
    } else {
        Ok(Front::Refused(DEFINE_NOT_TAKEN))
    }
}

// A `#define` with this word after it, and these bytes after the word.
#[tactic(auto, unfolding(crate::specs::Directives::named_define))]
fn named_define(alloc: Global, whole: &[u8], name: &[u8], rest: &[u8]) -> Result<Front, Memory>
    requires { length rest.now < length whole.now }
    ensures value { IfOk result (λ front. front ≡ spec.named_define whole.now name.now rest.now) }
    ensures within { IfOk result (λ front. Fits front (length whole.now)) }
{
    if is_same(name, b"PERL_NO_GET_CONTEXT") && is_over(rest) {
        Ok(Front::Piece(TokKind::Include, whole.len() - rest.len()))
    } else if may_define(name) {
        valued_define(alloc, whole, name, rest)
    } else {
        Ok(Front::Refused(DEFINE_NOT_TAKEN))
    }
}

// A `#define` with these bytes after it.
#[tactic(auto, using(crate::proofs::RunSizes::after_within))]
fn define_front(alloc: Global, whole: &[u8], rest: &[u8]) -> Result<Front, Memory>
    requires { length rest.now < length whole.now }
    ensures value { IfOk result (λ front. front ≡ spec.define_front whole.now rest.now) }
    ensures within { IfOk result (λ front. Fits front (length whole.now)) }
{
    if starts_with_class(ByteClass::Blank, rest) {
        let (name, after) = cut_run(ByteClass::Word, after_blanks(rest));
        named_define(alloc, whole, name, after)
    } else {
        Ok(Front::Refused(DEFINE_NOT_TAKEN))
    }
}

/// The directive of a line from its `#` on, with these bytes after the `#`.
#[tactic(auto, using(crate::proofs::RunSizes::after_within), unfolding(crate::specs::Directives::directive_front))]
pub fn directive_front(alloc: Global, whole: &[u8], after: &[u8]) -> Result<Front, Memory>
    requires { length after.now < length whole.now }
    ensures value { IfOk result (λ front. front ≡ spec.directive_front whole.now after.now) }
    ensures within { IfOk result (λ front. Fits front (length whole.now)) }
{
    let (word, rest) = cut_run(ByteClass::Word, after_blanks(after));
    if is_same(word, b"include") {
        Ok(Front::Piece(TokKind::Include, whole.len()))
    } else if is_same(word, b"define") {
        define_front(alloc, whole, rest)
    } else {
        Ok(Front::Refused(STRAY_BYTE))
    }
}
