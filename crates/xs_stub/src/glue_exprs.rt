//! The expressions of the intended tree. Where one is not made, memory runs out.

ghost use Rattle.std.specs.Prelude.{◌≡◌, [], ◌∷◌, IfOk, codes, fold, map};
ghost use Rattle.xs_cexpr.specs.ExpressionTree as t;
ghost use Rattle.xs_cexpr.specs.ExpressionViews.{expr_tree};
ghost use Rattle.xs_cinput.specs.declared.tree.BinaryOp.TheVariants as binary;
ghost use Rattle.xs_stub.specs.Intended as spec;
ghost use Rattle.xs_stub.specs.Stub.{joined_names};
ghost use Rattle.xs_values.specs.declared.operator.Op.TheVariants as op;

use crate::writer::{name_at, write_names};
use std::alloc::Global;
use xs_base::{Bytes, Memory};
use xs_csyn::{BinaryOp, CType, Expr};
use xs_ctok::Literal;
use xs_iface::{Param, Term};
use xs_values::{Base, Length, Op, Suffix};

/// A type by its word, without `*`.
pub fn type_of(alloc: Global, line: u32, name: &[u8]) -> Result<CType, Memory>
    ensures { IfOk result (λ c. c ≡ spec.type_of line name.now) }
{
    let name = Bytes::from_slice(alloc, name)?;
    Ok(CType {
        line,
        name,
        stars: 0,
    })
}

/// A name that stands for a value.
#[tactic(auto, using(xs_cstmt::proofs::ViewsCompute::views))]
pub fn variable(alloc: Global, line: u32, name: &[u8]) -> Result<Expr, Memory>
    ensures { IfOk result (λ e. expr_tree e ≡ t.Var line name.now) }
{
    let name = Bytes::from_slice(alloc, name)?;
    Ok(Expr::Name(line, name))
}

// A number as a literal, without a suffix.
fn literal_of(value: u64) -> Literal
    ensures { result ≡ spec.literal_of value }
{
    Literal {
        value,
        base: Base::Decimal,
        suffix: Suffix {
            unsigned: false,
            length: Length::Int,
        },
    }
}

/// A number.
#[tactic(auto, using(xs_cstmt::proofs::ViewsCompute::views))]
pub fn number(line: u32, value: u64) -> Expr
    ensures { expr_tree result ≡ spec.number line value }
{
    Expr::Int(line, literal_of(value))
}

/// A call of a function by its name.
#[tactic(auto, using(xs_cstmt::proofs::ViewsCompute::views))]
pub fn call_of(alloc: Global, line: u32, name: &[u8], args: Vec<Expr>) -> Result<Expr, Memory>
    ensures { IfOk result (λ e. expr_tree e
        ≡ spec.call_of line name.now (map expr_tree args.items)) }
{
    let name = Bytes::from_slice(alloc, name)?;
    Ok(Expr::Call(line, name, args))
}

/// One argument.
pub fn one(alloc: Global, a: Expr) -> Result<Vec<Expr>, Memory>
    ensures { IfOk result (λ v. map expr_tree v.items ≡ expr_tree a ∷ []) }
{
    let mut all = Vec::new(alloc);
    all.push(a)?;
    Ok(all)
}

/// Two arguments.
pub fn two(alloc: Global, a: Expr, b: Expr) -> Result<Vec<Expr>, Memory>
    ensures { IfOk result (λ v. map expr_tree v.items ≡ expr_tree a ∷ expr_tree b ∷ []) }
{
    let mut all = one(alloc, a)?;
    all.push(b)?;
    Ok(all)
}

/// An expression cast to another type.
#[tactic(auto, using(xs_cstmt::proofs::ViewsCompute::views))]
pub fn cast_to(alloc: Global, line: u32, to: CType, a: Expr) -> Result<Expr, Memory>
    ensures { IfOk result (λ e. expr_tree e ≡ t.Cast line to (expr_tree a)) }
{
    Ok(Expr::Cast(line, to, Box::new(alloc, a)?))
}

/// Two operands with an operator on numbers between them.
#[tactic(auto, using(xs_cstmt::proofs::ViewsCompute::views))]
pub fn joined(alloc: Global, line: u32, op: Op, a: Expr, b: Expr) -> Result<Expr, Memory>
    ensures { IfOk result (λ e. expr_tree e
        ≡ t.Two line (binary.On op) (expr_tree a) (expr_tree b)) }
{
    let a = Box::new(alloc, a)?;
    let b = Box::new(alloc, b)?;
    Ok(Expr::Binary(line, BinaryOp::On(op), a, b))
}

/// The `int` that the argument of this index is read as.
pub fn int_argument(alloc: Global, line: u32, index: u64) -> Result<Expr, Memory>
    ensures { IfOk result (λ e. expr_tree e ≡ spec.int_argument line index) }
{
    let item = call_of(alloc, line, b"ST", one(alloc, number(line, index))?)?;
    let value = call_of(alloc, line, b"SvIV", one(alloc, item)?)?;
    let int_type = type_of(alloc, line, b"int")?;
    cast_to(alloc, line, int_type, value)
}

/// The croak over the number of arguments, with the names of the parameters.
#[tactic(auto, using(xs_cstmt::proofs::ViewsCompute::views))]
pub fn usage_croak(alloc: Global, line: u32, params: &[Param]) -> Result<Expr, Memory>
    ensures { IfOk result (λ e. expr_tree e
        ≡ spec.call_of line (codes "croak_xs_usage")
        (t.Var line (codes "cv") ∷ t.Str line (joined_names params.now) ∷ [])) }
{
    let function = variable(alloc, line, b"cv")?;
    let names = Expr::Text(line, write_names(alloc, params)?);
    call_of(alloc, line, b"croak_xs_usage", two(alloc, function, names)?)
}

fn term_tree(alloc: Global, params: &[Param], line: u32, term: Term) -> Result<Expr, Memory>
    ensures { IfOk result (λ e. expr_tree e ≡ spec.term_tree params.now line term) }
{
    match term {
        Term::Parameter(at) => variable(alloc, line, name_at(params, at)),
        Term::Literal(value) => Ok(number(line, value as u64)),
    }
}

/// The sum of a term and of those that follow it, grouped to the left.
pub fn sum_tree(
    alloc: Global,
    params: &[Param],
    line: u32,
    first: Term,
    others: &[Term],
) -> Result<Expr, Memory>
    ensures { IfOk result (λ e. expr_tree e
        ≡ fold (λ sum term. t.Two line (binary.On op.Add) sum (spec.term_tree params.now line term))
        (spec.term_tree params.now line first) others.now) }
{
    let mut sum = term_tree(alloc, params, line, first)?;
    for term in others {
        let next = term_tree(alloc, params, line, *term)?;
        sum = joined(alloc, line, Op::Add, sum, next)?;
    }
    Ok(sum)
}
