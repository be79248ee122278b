//! Statements of the XS interface (perlxs, perlapi, perlcall).
ghost use Rattle.std.specs.Option.{option_copied};
ghost use Rattle.std.specs.Prelude.{◌≡◌, IfOk, map, option_map};
ghost use Rattle.xs_cstmt.specs.PerlForms as spec;
ghost use Rattle.xs_cinput.specs.TokenInput.{Reads};
ghost use Rattle.xs_cstmt.specs.StatementViews.{stmt_tree};

use crate::{PerlForm, PerlWord, Stmt};
use std::alloc::Global;
use xs_base::{Bytes, Memory, Refuse};
use xs_cinput::{
    Cursor, Kept, TypeNames, is_name, is_punct_kind, is_sign, is_type, is_variable, is_word_kind,
    listed,
};
use xs_ctok::{Literal, TokKind, Token};

/// What a form has at one place after its first word.
#[derive(Clone, Copy, Debug, PartialEq, Eq)]
pub enum Slot {
    /// The word or the punctuator that stands beside it in the table.
    Spelt,
    /// The name of a variable or a function.
    Variable,
    /// A name of anything, also of a type.
    Name,
    /// An integer.
    Int,
    /// The integer `1`, written so.
    One,
    /// A text in quotes.
    Text,
}

/// The forms.
#[derive(Clone, Copy, Debug, PartialEq, Eq)]
pub enum Form {
    Word(PerlWord),
    ResetStack,
    SetIndex,
    NewXs,
    KeptNewXs,
    NewRecord,
    Unused,
}

/// The forms by their first words, each with what stands after that.
#[rattlefmt::skip]
pub const FORMS: [(&str, (Form, &[(Slot, &str)])); 19] = [
    ("dXSARGS", (Form::Word(PerlWord::DXsArgs), &[(Slot::Spelt, ";")])),
    ("dXSI32", (Form::Word(PerlWord::DXsI32), &[(Slot::Spelt, ";")])),
    ("dSP", (Form::Word(PerlWord::DSp), &[(Slot::Spelt, ";")])),
    ("ENTER", (Form::Word(PerlWord::Enter), &[(Slot::Spelt, ";")])),
    ("LEAVE", (Form::Word(PerlWord::Leave), &[(Slot::Spelt, ";")])),
    ("SAVETMPS", (Form::Word(PerlWord::SaveTmps), &[(Slot::Spelt, ";")])),
    ("FREETMPS", (Form::Word(PerlWord::FreeTmps), &[(Slot::Spelt, ";")])),
    ("PUTBACK", (Form::Word(PerlWord::PutBack), &[(Slot::Spelt, ";")])),
    ("SPAGAIN", (Form::Word(PerlWord::SpAgain), &[(Slot::Spelt, ";")])),
    ("XSRETURN_EMPTY", (Form::Word(PerlWord::XsReturnEmpty), &[(Slot::Spelt, ";")])),
    ("XSRETURN_UNDEF", (Form::Word(PerlWord::XsReturnUndef), &[(Slot::Spelt, ";")])),
    ("XSRETURN_YES", (Form::Word(PerlWord::XsReturnYes), &[(Slot::Spelt, ";")])),
    ("XSRETURN_NO", (Form::Word(PerlWord::XsReturnNo), &[(Slot::Spelt, ";")])),
    ("SP", (Form::ResetStack, &[(Slot::Spelt, "-="), (Slot::Spelt, "items"), (Slot::Spelt, ";")])),
    ("XSANY", (Form::SetIndex, &[(Slot::Spelt, "."), (Slot::Spelt, "any_i32"), (Slot::Spelt, "="), (Slot::Int, ""), (Slot::Spelt, ";")])),
    ("newXS_deffile", (Form::NewXs, &[(Slot::Spelt, "("), (Slot::Text, ""), (Slot::Spelt, ","), (Slot::Variable, ""), (Slot::Spelt, ")"), (Slot::Spelt, ";")])),
    ("cv", (Form::KeptNewXs, &[(Slot::Spelt, "="), (Slot::Spelt, "newXS_deffile"), (Slot::Spelt, "("), (Slot::Text, ""), (Slot::Spelt, ","), (Slot::Variable, ""), (Slot::Spelt, ")"), (Slot::Spelt, ";")])),
    ("Newxz", (Form::NewRecord, &[(Slot::Spelt, "("), (Slot::Variable, ""), (Slot::Spelt, ","), (Slot::One, ""), (Slot::Spelt, ","), (Slot::Name, ""), (Slot::Spelt, ")"), (Slot::Spelt, ";")])),
    ("PERL_UNUSED_VAR", (Form::Unused, &[(Slot::Spelt, "("), (Slot::Variable, ""), (Slot::Spelt, ")"), (Slot::Spelt, ";")])),
];

// Whether it is an integer.
fn is_int(t: &Token) -> bool
    ensures { result ≡ spec.is_int t.now }
{
    matches!(t.kind, TokKind::Int(_))
}

// Whether it is a text in quotes.
fn is_text(t: &Token) -> bool
    ensures { result ≡ spec.is_text t.now }
{
    matches!(t.kind, TokKind::Text(_))
}

// Whether it is the integer `1`, written so.
fn is_one(t: &Token) -> bool
    ensures { result ≡ spec.is_one t.now }
{
    is_int(t) && t.text.as_slice() == b"1".as_slice()
}

// Whether it is this word or this punctuator.
fn is_spelt(text: &[u8], t: &Token) -> bool
    ensures { result ≡ spec.is_spelt text.now t.now }
{
    (is_word_kind(&t.kind) || is_punct_kind(&t.kind)) && t.text.as_slice() == text
}

fn fits(types: &TypeNames, slot: Slot, text: &[u8], t: &Token) -> bool
    ensures { result ≡ spec.fits types.now (slot, text.now) t.now }
{
    match slot {
        Slot::Spelt => is_spelt(text, t),
        Slot::Variable => is_variable(types, t),
        Slot::Name => is_name(t),
        Slot::Int => is_int(t),
        Slot::One => is_one(t),
        Slot::Text => is_text(t),
    }
}

// Whether it can stand in no expression.
fn is_no_operand(types: &TypeNames, t: &Token) -> bool
    ensures { result ≡ spec.is_no_operand types.now t.now }
{
    is_type(types, t) || is_sign(b".", t)
}

// Whether tokens fit these slots, all of them, or up to one that can stand in no expression.
fn leads(types: &TypeNames, slots: &[(Slot, &str)], tokens: Kept<'_>) -> bool
    ensures { result ≡ spec.leads types.now (spec.slots_of slots.now) tokens.entry }
{
    let mut rest = tokens;
    for entry in slots {
        let (slot, text) = *entry;
        let Some(t) = rest.first() else {
            return false;
        };
        if !fits(types, slot, text.as_bytes(), t) {
            return false;
        }
        if is_no_operand(types, t) {
            return true;
        }
        rest.skip();
    }
    true
}

// The form of a word in a table, and what stands after the word.
fn row_in(
    table: &[(&str, (Form, &'static [(Slot, &'static str)]))],
    t: &Token,
) -> Option<(Form, &'static [(Slot, &'static str)])>
    ensures { option_map (λ row. (row.0, spec.slots_of row.1.now)) result ≡ spec.row_in
        (map (λ row. (row.0.now, (row.1.0, spec.slots_of row.1.1.now))) table.now) t.now }
{
    if is_word_kind(&t.kind) {
        listed(table, t.text.as_slice())
    } else {
        None
    }
}

// The form of a word, and what stands after the word.
#[tactic(auto, unfolding(crate::specs::PerlForms::forms))]
fn form_row(t: &Token) -> Option<(Form, &'static [(Slot, &'static str)])>
    ensures { option_map (λ row. (row.0, spec.slots_of row.1.now)) result ≡ spec.form_row t.now }
{
    row_in(&FORMS, t)
}

/// The form that has to be read here, if it is one.
#[tactic(auto, unfolding(crate::specs::PerlForms::form_ahead))]
pub fn form_ahead(cursor: &Cursor<'_, '_>) -> Option<Form>
    ensures { result ≡ spec.form_ahead cursor.now }
{
    let first = cursor.first()?;
    let (form, slots) = form_row(first)?;
    if is_type(cursor.types(), first) || leads(cursor.types(), slots, cursor.rest_after()) {
        Some(form)
    } else {
        None
    }
}

// Whether the first token fits the first slot.
fn fits_first(types: &TypeNames, slots: &[(Slot, &str)], tokens: Kept<'_>) -> bool
    ensures { result ≡ spec.fits_first types.now (spec.slots_of slots.now) tokens.entry }
{
    let Some(entry) = slots.first() else {
        return true;
    };
    let (slot, text) = *entry;
    match tokens.first() {
        None => false,
        Some(t) => fits(types, slot, text.as_bytes(), t),
    }
}

/// Whether the next two tokens begin a form.
#[tactic(auto, unfolding(crate::specs::PerlForms::begins_form))]
pub fn begins_form(cursor: &Cursor<'_, '_>) -> bool
    ensures { result ≡ spec.begins_form cursor.now }
{
    let Some(first) = cursor.first() else {
        return false;
    };
    match form_row(first) {
        None => false,
        Some((_, slots)) => fits_first(cursor.types(), slots, cursor.rest_after()),
    }
}

/// The integer that comes next, if one does.
#[tactic(auto, unfolding(crate::specs::PerlForms::int_ahead))]
pub fn int_ahead(cursor: &Cursor<'_, '_>) -> Option<Literal>
    ensures { result ≡ spec.int_ahead cursor.now }
{
    match &cursor.first()?.kind {
        TokKind::Int(literal) => Some(*literal),
        _ => None,
    }
}

// The integer that has to come next.
#[tactic(auto, unfolding(crate::specs::PerlForms::an_int))]
fn an_int(alloc: Global, cursor: &mut Cursor<'_, '_>) -> Result<Literal, Refuse>
    ensures { Reads (λ l. l) (spec.an_int cursor.old) result cursor.new }
{
    let Some(literal) = int_ahead(cursor) else {
        return Err(cursor.refuse(alloc));
    };
    cursor.skip();
    Ok(literal)
}

// The bytes of the text that comes next, if one does.
#[tactic(auto, unfolding(crate::specs::PerlForms::text_ahead))]
fn text_ahead(alloc: Global, cursor: &Cursor<'_, '_>) -> Result<Option<Bytes>, Memory>
    ensures { IfOk result (λ text. text ≡ spec.text_ahead cursor.now) }
{
    match cursor.first() {
        None => Ok(None),
        Some(first) => match &first.kind {
            TokKind::Text(text) => Ok(Some(text.copy(alloc)?)),
            _ => Ok(None),
        },
    }
}

// The text that has to come next.
#[tactic(auto, unfolding(crate::specs::PerlForms::a_text))]
fn a_text(alloc: Global, cursor: &mut Cursor<'_, '_>) -> Result<Bytes, Refuse>
    ensures { Reads (λ b. b) (spec.a_text cursor.old) result cursor.new }
{
    let Some(text) = text_ahead(alloc, cursor)? else {
        return Err(cursor.refuse(alloc));
    };
    cursor.skip();
    Ok(text)
}

// Whether the integer `1` comes next.
#[tactic(auto, unfolding(crate::specs::PerlForms::sees_one))]
fn sees_one(cursor: &Cursor<'_, '_>) -> bool
    ensures { result ≡ spec.sees_one cursor.now }
{
    match cursor.first() {
        None => false,
        Some(first) => is_one(first),
    }
}

// `SP -= items;`
#[tactic(auto, unfolding(crate::specs::PerlForms::reset_stack))]
fn reset_stack(alloc: Global, cursor: &mut Cursor<'_, '_>) -> Result<PerlForm, Refuse>
    ensures { Reads (λ f. f) (spec.reset_stack cursor.old) result cursor.new }
{
    cursor.skip();
    cursor.expect(alloc, b"-=")?;
    cursor.expect_word(alloc, b"items")?;
    cursor.expect(alloc, b";")?;
    Ok(PerlForm::ResetStack)
}

// `XSANY.any_i32 = INT;`
#[tactic(auto, unfolding(crate::specs::PerlForms::set_index))]
fn set_index(alloc: Global, cursor: &mut Cursor<'_, '_>) -> Result<PerlForm, Refuse>
    ensures { Reads (λ f. f) (spec.set_index cursor.old) result cursor.new }
{
    cursor.skip();
    cursor.expect(alloc, b".")?;
    cursor.expect_word(alloc, b"any_i32")?;
    cursor.expect(alloc, b"=")?;
    let literal = an_int(alloc, cursor)?;
    cursor.expect(alloc, b";")?;
    Ok(PerlForm::SetIndex(literal))
}

// The function that is registered under this full name, after that.
fn registered(
    alloc: Global,
    cursor: &mut Cursor<'_, '_>,
    keeps: bool,
    full: Bytes,
) -> Result<PerlForm, Refuse>
    ensures { Reads (λ f. f) (spec.registered keeps full cursor.old) result cursor.new }
{
    cursor.expect(alloc, b",")?;
    let function = cursor.variable(alloc)?;
    cursor.expect(alloc, b")")?;
    cursor.expect(alloc, b";")?;
    Ok(PerlForm::NewXs {
        keeps,
        full,
        function,
    })
}

// `newXS_deffile("FULL", FUNCTION);`
#[tactic(auto, unfolding(crate::specs::PerlForms::new_xs))]
fn new_xs(alloc: Global, cursor: &mut Cursor<'_, '_>, keeps: bool) -> Result<PerlForm, Refuse>
    ensures { Reads (λ f. f) (spec.new_xs keeps cursor.old) result cursor.new }
{
    cursor.expect_word(alloc, b"newXS_deffile")?;
    cursor.expect(alloc, b"(")?;
    let full = a_text(alloc, cursor)?;
    registered(alloc, cursor, keeps, full)
}

// `cv = newXS_deffile("FULL", FUNCTION);`
#[tactic(auto, unfolding(crate::specs::PerlForms::kept_new_xs))]
fn kept_new_xs(alloc: Global, cursor: &mut Cursor<'_, '_>) -> Result<PerlForm, Refuse>
    ensures { Reads (λ f. f) (spec.kept_new_xs cursor.old) result cursor.new }
{
    cursor.skip();
    cursor.expect(alloc, b"=")?;
    new_xs(alloc, cursor, true)
}

// `Newxz(POINTER, 1, RECORD);`
#[tactic(auto, unfolding(crate::specs::PerlForms::new_record, crate::specs::PerlForms::expect_one))]
fn new_record(alloc: Global, cursor: &mut Cursor<'_, '_>) -> Result<PerlForm, Refuse>
    ensures { Reads (λ f. f) (spec.new_record cursor.old) result cursor.new }
{
    cursor.skip();
    cursor.expect(alloc, b"(")?;
    let pointer = cursor.variable(alloc)?;
    cursor.expect(alloc, b",")?;
    let is_one = sees_one(cursor);
    cursor.passed(alloc, is_one)?;
    cursor.expect(alloc, b",")?;
    let record = cursor.name(alloc)?;
    cursor.expect(alloc, b")")?;
    cursor.expect(alloc, b";")?;
    Ok(PerlForm::NewRecord { pointer, record })
}

// `PERL_UNUSED_VAR(NAME);`
#[tactic(auto, unfolding(crate::specs::PerlForms::unused))]
fn unused(alloc: Global, cursor: &mut Cursor<'_, '_>) -> Result<PerlForm, Refuse>
    ensures { Reads (λ f. f) (spec.unused cursor.old) result cursor.new }
{
    cursor.skip();
    cursor.expect(alloc, b"(")?;
    let name = cursor.variable(alloc)?;
    cursor.expect(alloc, b")")?;
    cursor.expect(alloc, b";")?;
    Ok(PerlForm::Unused(name))
}

// A form of which the first word has come.
fn form_of(alloc: Global, cursor: &mut Cursor<'_, '_>, which: Form) -> Result<PerlForm, Refuse>
    ensures { Reads (λ f. f) (spec.form_of which cursor.old) result cursor.new }
{
    match which {
        Form::Word(word) => {
            cursor.skip();
            cursor.expect(alloc, b";")?;
            Ok(PerlForm::Word(word))
        }
        Form::ResetStack => reset_stack(alloc, cursor),
        Form::SetIndex => set_index(alloc, cursor),
        Form::NewXs => new_xs(alloc, cursor, false),
        Form::KeptNewXs => kept_new_xs(alloc, cursor),
        Form::NewRecord => new_record(alloc, cursor),
        Form::Unused => unused(alloc, cursor),
    }
}

/// A statement of this form.
#[tactic(auto, using(crate::proofs::ViewsCompute::views), unfolding(crate::specs::PerlForms::perl_form))]
pub fn perl_form(alloc: Global, cursor: &mut Cursor<'_, '_>, which: Form) -> Result<Stmt, Refuse>
    ensures { Reads stmt_tree (spec.perl_form which cursor.old) result cursor.new }
{
    let line = cursor.line();
    let read = form_of(alloc, cursor, which)?;
    Ok(Stmt::Perl(line, read))
}
