//! Calls of rows of Perl's API.
ghost use Rattle.std.specs.Prelude.{◌≡◌, IfOk, map, option_map, true};
ghost use Rattle.std.specs.Option.{option_copied};
ghost use Rattle.xs_cexpr.specs.ExpressionTree.{exprs_of};
ghost use Rattle.xs_cexpr.specs.ExpressionViews.{expr_tree};
ghost use Rattle.xs_perlapi.specs.Table.{signature_view};
ghost use Rattle.xs_ctypes.specs.Checked.{judged};
ghost use Rattle.xs_ccheck.specs.ExprTyping as spec;
ghost use Rattle.xs_ccheck.specs.Resolving.{GivesExpr, HaveTyped, all_typed_in, nodes_of};
ghost use Rattle.xs_ctree.specs.declared.typed.Typed.{Typed};

use crate::exprs::TypedNode;
use std::alloc::Global;
use xs_base::fault_codes::{UNKNOWN_FUNCTION, WRONG_NUMBER_OF_ARGUMENTS};
use xs_base::{Bytes, Memory, Refuse};
use xs_csyn::Expr;
use xs_ctree::{Typed, ValueType};
use xs_ctypes::{is, is_operand, result_type, types_differ, unknown, worded};
use xs_perlapi::{ApiType, Signature};

// Whether operands have the types that are wanted.
fn all_fit(wanted: &[ApiType], xs: &[TypedNode]) -> bool
    ensures { (t : Typed) → result ≡ spec.all_fit wanted.now (all_typed_in t xs.now) }
{
    let Some((one, others)) = wanted.split_first() else {
        return true;
    };
    let Some((x, rest)) = xs.split_first() else {
        return true;
    };
    is_operand(*one, x.of_type) && all_fit(others, rest)
}

// The indices of expressions.
fn indices(alloc: Global, xs: &[TypedNode]) -> Result<Vec<u32>, Memory>
    ensures { IfOk result (λ v. v.items ≡ nodes_of xs.now) }
{
    let mut all = Vec::new(alloc);
    for x in xs {
        all.push(x.node)?;
    }
    Ok(all)
}

fn row_called(
    alloc: Global,
    typed: &mut Typed,
    line: u32,
    row: Signature,
    xs: &[TypedNode],
) -> Result<TypedNode, Refuse>
    requires { HaveTyped typed.old xs.now }
    ensures { GivesExpr result typed.old typed.new
        (judged line (spec.row_judged line (signature_view row) (all_typed_in typed.old xs.now))) }
{
    if !all_fit(row.operands, xs) {
        return Err(types_differ(alloc, line));
    }
    let operands = indices(alloc, xs)?;
    let node = typed.add_row(line, row.row, operands.as_slice())?;
    Ok(TypedNode {
        node,
        of_type: result_type(row.result),
    })
}

pub(crate) fn called(
    alloc: Global,
    typed: &mut Typed,
    line: u32,
    name: &[u8],
    row: Option<Signature>,
    xs: &[TypedNode],
) -> Result<TypedNode, Refuse>
    requires { HaveTyped typed.old xs.now }
    ensures { GivesExpr result typed.old typed.new
        (judged line (spec.called line name.now (option_map signature_view row)
        (all_typed_in typed.old xs.now))) }
{
    match row {
        None => { Err(Refuse::Fault(unknown(alloc, UNKNOWN_FUNCTION, line, name)?)) }
        Some(row) => {
            if xs.len() == row.operands.len() {
                row_called(alloc, typed, line, row, xs)
            } else {
                Err(Refuse::Fault(worded(alloc, line, WRONG_NUMBER_OF_ARGUMENTS, name)?))
            }
        }
    }
}

// ---- the usage croak

#[tactic(auto, using(xs_cstmt::proofs::ViewsCompute::views))]
fn is_cv(e: &Expr) -> bool
    ensures { result ≡ spec.is_cv (expr_tree e.now) }
{
    match e {
        Expr::Name(_, name) => is(name.as_slice(), b"cv"),
        Expr::Int(_, _)
        | Expr::Char(_, _)
        | Expr::Text(_, _)
        | Expr::Call(_, _, _)
        | Expr::Paren(_, _)
        | Expr::Int2Ptr(_, _, _)
        | Expr::Index(_, _, _)
        | Expr::Arrow(_, _, _)
        | Expr::Unary(_, _, _)
        | Expr::Cast(_, _, _)
        | Expr::Deref(_, _)
        | Expr::Address(_, _)
        | Expr::Before(_, _, _)
        | Expr::After(_, _, _)
        | Expr::Binary(_, _, _, _)
        | Expr::Choice(_, _, _, _)
        | Expr::Assign(_, _, _, _) => false,
    }
}

// A literal text.
#[tactic(auto, using(xs_cstmt::proofs::ViewsCompute::views))]
fn text_in(e: &Expr) -> Option<&Bytes>
    ensures { option_copied result ≡ spec.text_in (expr_tree e.now) }
{
    match e {
        Expr::Text(_, text) => Some(text),
        Expr::Name(_, _)
        | Expr::Int(_, _)
        | Expr::Char(_, _)
        | Expr::Call(_, _, _)
        | Expr::Paren(_, _)
        | Expr::Int2Ptr(_, _, _)
        | Expr::Index(_, _, _)
        | Expr::Arrow(_, _, _)
        | Expr::Unary(_, _, _)
        | Expr::Cast(_, _, _)
        | Expr::Deref(_, _)
        | Expr::Address(_, _)
        | Expr::Before(_, _, _)
        | Expr::After(_, _, _)
        | Expr::Binary(_, _, _, _)
        | Expr::Choice(_, _, _, _)
        | Expr::Assign(_, _, _, _) => None,
    }
}

// The croak for wrong use, with the text of the parameters.
fn usage_of(
    alloc: Global,
    typed: &mut Typed,
    line: u32,
    is_cv: bool,
    text: Option<&Bytes>,
) -> Result<TypedNode, Refuse>
    ensures { GivesExpr result typed.old typed.new
        (judged line (spec.usage_of line is_cv (option_copied text.entry))) }
{
    match text {
        Some(text) if is_cv => {
            let text = text.copy(alloc)?;
            let node = typed.add_usage(line, text)?;
            Ok(TypedNode {
                node,
                of_type: ValueType::Void,
            })
        }
        _ => Err(types_differ(alloc, line)),
    }
}

fn wrong_usage(alloc: Global, line: u32) -> Result<TypedNode, Refuse>
    ensures { (t : Typed) → GivesExpr result t t (judged line spec.wrong_usage) }
{
    Err(Refuse::Fault(worded(alloc, line, WRONG_NUMBER_OF_ARGUMENTS, b"croak_xs_usage")?))
}

pub(crate) fn usage(
    alloc: Global,
    typed: &mut Typed,
    line: u32,
    args: &[Expr],
) -> Result<TypedNode, Refuse>
    ensures { GivesExpr result typed.old typed.new
        (judged line (spec.usage line (exprs_of (map expr_tree args.now)))) }
{
    let Some((first, rest)) = args.split_first() else {
        return wrong_usage(alloc, line);
    };
    let Some((second, others)) = rest.split_first() else {
        return wrong_usage(alloc, line);
    };
    if others.split_first().is_some() {
        return wrong_usage(alloc, line);
    }
    usage_of(alloc, typed, line, is_cv(first), text_in(second))
}
