//! The statements of the intended tree. Where one is not made, memory runs out.

ghost use Rattle.std.specs.Prelude.{◌≡◌, [], ◌∷◌, ◌++◌, IfOk, None, codes, map};
ghost use Rattle.xs_cexpr.specs.ExpressionTree as t_expr;
ghost use Rattle.xs_cstmt.specs.StatementTree as t_stmt;
ghost use Rattle.xs_cexpr.specs.ExpressionViews.{expr_tree, place_tree};
ghost use Rattle.xs_cstmt.specs.StatementViews.{declarator_tree, stmt_tree, stmt_trees};
ghost use Rattle.xs_stub.specs.Intended as spec;

use crate::glue_exprs::{
    call_of, cast_to, int_argument, joined, number, one, sum_tree, two, type_of, usage_croak,
    variable,
};
use std::alloc::Global;
use xs_base::{Bytes, Items, Memory, with_more};
use xs_csyn::{Declarator, Declared, Expr, PerlForm, PerlWord, Place, Stmt, if_of};
use xs_iface::{Param, Term, Xsub};
use xs_values::Op;

// ---- single statements

/// A statement of the XS interface.
#[tactic(auto, using(xs_cstmt::proofs::ViewsCompute::views))]
pub fn perl(line: u32, form: PerlForm) -> Stmt
    ensures { stmt_tree result ≡ t_stmt.Perl line form }
{
    Stmt::Perl(line, form)
}

// A name that is declared, with so many `*` before it.
fn declarator(alloc: Global, line: u32, stars: u32, name: &[u8]) -> Result<Declarator, Memory>
    ensures { IfOk result (λ d. declarator_tree d ≡ spec.declarator line stars name.now) }
{
    let name = Bytes::from_slice(alloc, name)?;
    Ok(Declarator {
        line,
        stars,
        name,
        value: None,
    })
}

fn one_name(alloc: Global, one: Declarator) -> Result<Items<Declarator>, Memory>
    ensures { IfOk result (λ all. map declarator_tree all ≡ declarator_tree one ∷ []) }
{
    let mut all = Items::new(alloc);
    all.push(one)?;
    Ok(all)
}

// A variable without a value.
#[tactic(auto, using(xs_cstmt::proofs::ViewsCompute::views))]
fn declared(
    alloc: Global,
    line: u32,
    type_name: &[u8],
    stars: u32,
    name: &[u8],
) -> Result<Stmt, Memory>
    ensures { IfOk result (λ s. stmt_tree s
        ≡ spec.declared line type_name.now stars name.now) }
{
    let base = Bytes::from_slice(alloc, type_name)?;
    let names = one_name(alloc, declarator(alloc, line, stars, name)?)?;
    Ok(Stmt::Declare(Declared { line, base, names }))
}

#[tactic(auto, using(xs_cstmt::proofs::ViewsCompute::views))]
fn effect(line: u32, a: Expr) -> Stmt
    ensures { stmt_tree result ≡ t_stmt.Effect line (expr_tree a) }
{
    Stmt::Effect(line, a)
}

#[tactic(auto, using(xs_cstmt::proofs::ViewsCompute::views))]
fn block(line: u32, body: Vec<Stmt>) -> Stmt
    ensures { stmt_tree result ≡ t_stmt.Block line (t_stmt.stmts_of (stmt_trees body)) }
{
    Stmt::Block(line, body)
}

// The place gets a value.
#[tactic(auto, using(xs_cstmt::proofs::ViewsCompute::views))]
fn put(alloc: Global, line: u32, place: Place, value: Expr) -> Result<Stmt, Memory>
    ensures { IfOk result (λ s. stmt_tree s
        ≡ t_stmt.Effect line (t_expr.Set line (place_tree place) None (expr_tree value))) }
{
    let value = Box::new(alloc, value)?;
    Ok(effect(line, Expr::Assign(line, place, None, value)))
}

// The variable gets a value.
#[tactic(auto, using(xs_cstmt::proofs::ViewsCompute::views))]
fn assign(alloc: Global, line: u32, name: &[u8], value: Expr) -> Result<Stmt, Memory>
    ensures { IfOk result (λ s. stmt_tree s ≡ spec.assign line name.now (expr_tree value)) }
{
    let name = Bytes::from_slice(alloc, name)?;
    put(alloc, line, Place::Variable(line, name), value)
}

// The first place of the argument list gets a value.
#[tactic(auto, using(xs_cstmt::proofs::ViewsCompute::views))]
fn put_first(alloc: Global, line: u32, value: Expr) -> Result<Stmt, Memory>
    ensures { IfOk result (λ s. stmt_tree s ≡ spec.put_first line (expr_tree value)) }
{
    let at = Box::new(alloc, number(line, 0))?;
    put(alloc, line, Place::St(line, at), value)
}

// Any other number of arguments croaks, with the names of the parameters.
fn usage_test(alloc: Global, line: u32, params: &[Param]) -> Result<Stmt, Memory>
    ensures { IfOk result (λ s. stmt_tree s ≡ spec.usage_test line params.now) }
{
    let items = variable(alloc, line, b"items")?;
    let count = number(line, params.len() as u64);
    let test = joined(alloc, line, Op::NotEqual, items, count)?;
    let croak = usage_croak(alloc, line, params)?;
    if_of(alloc, line, test, effect(line, croak))
}

// ---- statements after those that are there

/// The first statement of an XS function.
pub fn begun(alloc: Global, line: u32) -> Result<Vec<Stmt>, Memory>
    ensures { IfOk result (λ v. stmt_trees v ≡ t_stmt.Perl line spec.dxsargs ∷ []) }
{
    with_more(
        Vec::new(alloc),
        perl(line, PerlForm::Word(PerlWord::DXsArgs)),
    )
}

// A variable for each parameter.
#[tactic(auto, using(std::proofs::Common::append_assoc))]
fn with_declarations(
    alloc: Global,
    mut all: Vec<Stmt>,
    line: u32,
    params: &[Param],
) -> Result<Vec<Stmt>, Memory>
    ensures { IfOk result (λ v. stmt_trees v
        ≡ stmt_trees all ++ map (spec.declared_param line) params.now) }
{
    for param in params {
        let one = declared(alloc, line, b"int", 0, param.name.as_slice())?;
        all = with_more(all, one)?;
    }
    Ok(all)
}

fn declared_value(alloc: Global, line: u32) -> Result<Stmt, Memory>
    ensures { IfOk result (λ s. stmt_tree s ≡ spec.declared_int line (codes "RETVAL")) }
{
    declared(alloc, line, b"int", 0, b"RETVAL")
}

fn declared_scalar(alloc: Global, line: u32) -> Result<Stmt, Memory>
    ensures { IfOk result (λ s. stmt_tree s
        ≡ spec.declared line (codes "SV") 1 (codes "RETVALSV")) }
{
    declared(alloc, line, b"SV", 1, b"RETVALSV")
}

// The variables of the returned value.
#[tactic(auto, using(std::proofs::Common::append_assoc))]
fn with_result(alloc: Global, all: Vec<Stmt>, line: u32) -> Result<Vec<Stmt>, Memory>
    ensures { IfOk result (λ v. stmt_trees v
        ≡ stmt_trees all ++ spec.declared_result line) }
{
    let value = declared_value(alloc, line)?;
    let all = with_more(all, value)?;
    let scalar = declared_scalar(alloc, line)?;
    with_more(all, scalar)
}

// Each parameter's variable gets its argument, in the order of the list.
#[tactic(auto, using(std::proofs::Common::append_assoc))]
fn with_inputs(alloc: Global, mut all: Vec<Stmt>, params: &[Param]) -> Result<Vec<Stmt>, Memory>
    ensures { IfOk result (λ v. stmt_trees v ≡ stmt_trees all ++ spec.inputs_from 0 params.now) }
{
    let mut index: u64 = 0;
    for param in params {
        let value = int_argument(alloc, param.line, index)?;
        let input = assign(alloc, param.line, param.name.as_slice(), value)?;
        all = with_more(all, input)?;
        index += 1;
    }
    Ok(all)
}

// RETVAL gets the sum of the terms.
fn with_sum(
    alloc: Global,
    all: Vec<Stmt>,
    params: &[Param],
    line: u32,
    terms: &[Term],
) -> Result<Vec<Stmt>, Memory>
    ensures { IfOk result (λ v. stmt_trees v
        ≡ stmt_trees all ++ spec.sum_of params.now line terms.now) }
{
    let Some((first, others)) = terms.split_first() else {
        return Ok(all);
    };
    let sum = sum_tree(alloc, params, line, *first, others)?;
    let one = assign(alloc, line, b"RETVAL", sum)?;
    with_more(all, one)
}

// RETVALSV becomes a new mortal.
fn new_mortal(alloc: Global, line: u32) -> Result<Stmt, Memory>
    ensures { IfOk result (λ s. stmt_tree s
        ≡ spec.assign line (codes "RETVALSV") (spec.call_of line (codes "sv_newmortal") [])) }
{
    let mortal = call_of(alloc, line, b"sv_newmortal", Vec::new(alloc))?;
    assign(alloc, line, b"RETVALSV", mortal)
}

// The mortal gets the value of RETVAL.
fn set_value(alloc: Global, line: u32) -> Result<Stmt, Memory>
    ensures { IfOk result (λ s. stmt_tree s
        ≡ t_stmt.Effect line
        (spec.call_of line (codes "sv_setiv") (t_expr.Var line (codes "RETVALSV")
        ∷ t_expr.Cast line (spec.iv_type line) (t_expr.Var line (codes "RETVAL")) ∷ []))) }
{
    let scalar = variable(alloc, line, b"RETVALSV")?;
    let iv_type = type_of(alloc, line, b"IV")?;
    let value = cast_to(alloc, line, iv_type, variable(alloc, line, b"RETVAL")?)?;
    let set = call_of(alloc, line, b"sv_setiv", two(alloc, scalar, value)?)?;
    Ok(effect(line, set))
}

// RETVAL becomes the value of a new mortal.
#[tactic(auto, using(std::proofs::Common::append_assoc))]
fn with_value(alloc: Global, all: Vec<Stmt>, line: u32) -> Result<Vec<Stmt>, Memory>
    ensures { IfOk result (λ v. stmt_trees v ≡ stmt_trees all ++ spec.returned_value line) }
{
    let mortal = new_mortal(alloc, line)?;
    let all = with_more(all, mortal)?;
    let set = set_value(alloc, line)?;
    with_more(all, set)
}

// The mortal is put first.
fn put_mortal(alloc: Global, line: u32) -> Result<Stmt, Memory>
    ensures { IfOk result (λ s. stmt_tree s
        ≡ spec.put_first line (t_expr.Var line (codes "RETVALSV"))) }
{
    let mortal = variable(alloc, line, b"RETVALSV")?;
    put_first(alloc, line, mortal)
}

// The call is over, with one item.
fn return_item(alloc: Global, line: u32) -> Result<Stmt, Memory>
    ensures { IfOk result (λ s. stmt_tree s
        ≡ t_stmt.Effect line (spec.call_of line (codes "XSRETURN") (spec.number line 1 ∷ []))) }
{
    let over = call_of(alloc, line, b"XSRETURN", one(alloc, number(line, 1))?)?;
    Ok(effect(line, over))
}

// That mortal is the one item on the stack.
#[tactic(auto, using(std::proofs::Common::append_assoc))]
fn with_return(alloc: Global, all: Vec<Stmt>, line: u32) -> Result<Vec<Stmt>, Memory>
    ensures { IfOk result (λ v. stmt_trees v ≡ stmt_trees all ++ spec.return_one line) }
{
    let put = put_mortal(alloc, line)?;
    let all = with_more(all, put)?;
    let over = return_item(alloc, line)?;
    with_more(all, over)
}

// What an XSUB does once its arguments are as many as its parameters.
fn work_of(alloc: Global, x: &Xsub) -> Result<Vec<Stmt>, Memory>
    ensures { IfOk result (λ v. stmt_trees v ≡ spec.work_of x.now) }
{
    let params = x.params.as_slice();
    let all = with_declarations(alloc, Vec::new(alloc), x.line, params)?;
    let all = with_result(alloc, all, x.line)?;
    let all = with_inputs(alloc, all, params)?;
    let all = with_sum(alloc, all, params, x.code_line, x.sum.as_slice())?;
    let all = with_value(alloc, all, x.output_line)?;
    with_return(alloc, all, x.line)
}

// What stands in front of the block of a glue function.
fn opened(alloc: Global, x: &Xsub) -> Result<Vec<Stmt>, Memory>
    ensures { IfOk result (λ v. stmt_trees v
        ≡ t_stmt.Perl x.now.line spec.dxsargs ∷ spec.usage_test x.now.line x.now.params ∷ []) }
{
    let all = begun(alloc, x.line)?;
    let test = usage_test(alloc, x.line, x.params.as_slice())?;
    with_more(all, test)
}

/// What stands in the glue function of an XSUB.
pub fn xsub_body(alloc: Global, x: &Xsub) -> Result<Vec<Stmt>, Memory>
    ensures { IfOk result (λ v. stmt_trees v
        ≡ t_stmt.Perl x.now.line spec.dxsargs ∷ spec.usage_test x.now.line x.now.params
        ∷ t_stmt.Block x.now.line (t_stmt.stmts_of (spec.work_of x.now)) ∷ []) }
{
    let all = opened(alloc, x)?;
    let work = work_of(alloc, x)?;
    with_more(all, block(x.line, work))
}
