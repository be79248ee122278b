//! Casts, and pointers with what they point to.
ghost use Rattle.std.specs.Option.{is_some};
ghost use Rattle.std.specs.Prelude.{◌≡◌};
ghost use Rattle.xs_cexpr.specs.ExpressionViews.{expr_tree};
ghost use Rattle.xs_perlapi.specs.Table as table;
ghost use Rattle.xs_perlapi.specs.declared.row.Written.TheVariants as written;
ghost use Rattle.xs_ctypes.specs.Checked.{judged};
ghost use Rattle.xs_ctypes.specs.Scopes.{variable_of};
ghost use Rattle.xs_ctree.specs.declared.typed.Typed.{Typed};
ghost use Rattle.xs_ccheck.specs.ExprTyping as spec;
ghost use Rattle.xs_ccheck.specs.Resolving.{GivesExpr, HasTyped, typed_in};

use crate::exprs::{TypedNode, typed_as};
use std::alloc::Global;
use xs_base::fault_codes::{NOT_ASSIGNABLE, UNKNOWN_NAME};
use xs_base::{Fault, FileOf, Refuse};
use xs_csyn::Expr;
use xs_ctree::{ExprNode, Slot, Typed, ValueType};
use xs_ctypes::{
    Scope, casts, is, is_char, is_element, is_text, not_built, of_address, of_pointed,
    types_differ, unknown,
};
use xs_perlapi::{Written, word_written};
use xs_values::Kind;

// ---- casts

// A cast of a value.
fn converted(
    alloc: Global,
    typed: &mut Typed,
    line: u32,
    to: Option<ValueType>,
    x: TypedNode,
) -> Result<TypedNode, Refuse>
    requires { HasTyped typed.old x }
    ensures { GivesExpr result typed.old typed.new
        (judged line (spec.converted to (typed_in typed.old x))) }
{
    match to {
        Some(to) if casts(x.of_type, to) => typed_as(typed, ExprNode::Cast(to, x.node), to),
        _ => Err(types_differ(alloc, line)),
    }
}

fn is_text_type(to: Option<ValueType>) -> bool
    ensures { result ≡ spec.is_text_type to }
{
    match to {
        None => false,
        Some(t) => is_text(t),
    }
}

// The slot of a `char`.
fn char_slot(variable: Option<Slot>) -> Option<u32>
    ensures { result ≡ spec.char_slot variable }
{
    match variable {
        None => None,
        Some(v) => {
            if is_char(v.of_type) {
                Some(v.number)
            } else {
                None
            }
        }
    }
}

// The slot of a `char` whose address an expression is.
#[tactic(auto, using(xs_cstmt::proofs::ViewsCompute::views))]
pub(crate) fn letter_in(scope: &Scope, e: &Expr) -> Option<u32>
    ensures { result ≡ spec.letter_in scope.now.variables (expr_tree e.now) }
{
    match e {
        Expr::Address(_, name) => char_slot(scope.variable(name.as_slice())),
        Expr::Name(_, _)
        | Expr::Int(_, _)
        | Expr::Char(_, _)
        | Expr::Text(_, _)
        | Expr::Call(_, _, _)
        | Expr::Paren(_, _)
        | Expr::Int2Ptr(_, _, _)
        | Expr::Index(_, _, _)
        | Expr::Arrow(_, _, _)
        | Expr::Unary(_, _, _)
        | Expr::Cast(_, _, _)
        | Expr::Deref(_, _)
        | Expr::Before(_, _, _)
        | Expr::After(_, _, _)
        | Expr::Binary(_, _, _, _)
        | Expr::Choice(_, _, _, _)
        | Expr::Assign(_, _, _, _) => None,
    }
}

// A cast. The address of a `char` is cast to a text, which is the byte of the variable.
pub(crate) fn cast(
    alloc: Global,
    typed: &mut Typed,
    line: u32,
    letter: Option<u32>,
    to: Option<ValueType>,
    x: TypedNode,
) -> Result<TypedNode, Refuse>
    requires { HasTyped typed.old x }
    ensures { GivesExpr result typed.old typed.new
        (judged line (spec.cast letter to (typed_in typed.old x))) }
{
    match letter {
        None => converted(alloc, typed, line, to, x),
        Some(slot) => {
            if is_text_type(to) {
                typed_as(typed, ExprNode::Letter(slot), ValueType::Text)
            } else {
                converted(alloc, typed, line, to, x)
            }
        }
    }
}

// ---- pointers

// What a pointer points to.
pub(crate) fn pointed(
    alloc: Global,
    typed: &mut Typed,
    line: u32,
    x: TypedNode,
) -> Result<TypedNode, Refuse>
    requires { HasTyped typed.old x }
    ensures { GivesExpr result typed.old typed.new
        (judged line (spec.pointed line (typed_in typed.old x))) }
{
    match of_pointed(x.of_type) {
        None => Err(types_differ(alloc, line)),
        Some(t) => typed_as(typed, ExprNode::Pointed(line, t, x.node), t),
    }
}

// A byte of a text.
pub(crate) fn element(
    alloc: Global,
    typed: &mut Typed,
    line: u32,
    x: TypedNode,
    at: TypedNode,
) -> Result<TypedNode, Refuse>
    requires x_in { HasTyped typed.old x }
    requires at_in { HasTyped typed.old at }
    ensures { GivesExpr result typed.old typed.new
        (judged line (spec.element (typed_in typed.old x) (typed_in typed.old at))) }
{
    if is_element(x.of_type, at.of_type) {
        let node = ExprNode::ByteAt(x.node, at.node);
        typed_as(typed, node, ValueType::Number(Kind::I8))
    } else {
        Err(types_differ(alloc, line))
    }
}

// The address of a variable.
fn address_of(alloc: Global, typed: &mut Typed, line: u32, v: Slot) -> Result<TypedNode, Refuse>
    ensures { GivesExpr result typed.old typed.new
        (judged line (spec.address_of v)) }
{
    match of_address(v.of_type) {
        None => Err(types_differ(alloc, line)),
        Some(t) => typed_as(typed, ExprNode::Address(v.number), t),
    }
}

// Whether a word stands behind `&` for a scalar of Perl.
fn is_scalar_word(name: &[u8]) -> bool
    ensures { result ≡ is_some (table.word_written written.Address name.now) }
{
    match word_written(Written::Address, name) {
        None => false,
        Some(_) => true,
    }
}

// The address of a name that is no variable.
fn other_address(alloc: Global, line: u32, name: &[u8]) -> Result<TypedNode, Refuse>
    ensures { (t : Typed) → GivesExpr result t t (judged line (spec.other_address name.now)) }
{
    if is_scalar_word(name) {
        return Err(not_built(alloc, line));
    }
    if is(name, b"items") {
        return Err(Refuse::Fault(Fault::bare(alloc, FileOf::Text, line, NOT_ASSIGNABLE)));
    }
    Err(Refuse::Fault(unknown(alloc, UNKNOWN_NAME, line, name)?))
}

// The address of a name.
pub(crate) fn address_meant(
    alloc: Global,
    typed: &mut Typed,
    scope: &Scope,
    line: u32,
    name: &[u8],
) -> Result<TypedNode, Refuse>
    ensures { GivesExpr result typed.old typed.new (judged line
        (spec.address_meant name.now (variable_of scope.now.variables name.now))) }
{
    match scope.variable(name) {
        None => other_address(alloc, line, name),
        Some(v) => address_of(alloc, typed, line, v),
    }
}
