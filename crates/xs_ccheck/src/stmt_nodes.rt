//! Nodes of statements whose parts are there.
ghost use Rattle.std.specs.Prelude.{◌≡◌, ◌∷◌, IfOk, Ok, Some, length, true, []};
ghost use Rattle.xs_cstmt.specs.StatementTree.{stmts_of};
ghost use Rattle.xs_ctree.specs.Arena.{stmt_fits, stmt_from};
ghost use Rattle.xs_ctree.specs.Functions.{arena_of, expr_in, stmt_in};
ghost use Rattle.xs_ctree.specs.Growth.{HasStmt};
ghost use Rattle.xs_ctree.specs.TypedTree as tree;
ghost use Rattle.xs_ctree.specs.declared.typed.Typed.{Typed};
ghost use Rattle.xs_ctypes.specs.Checked.{Good, judged};
ghost use Rattle.xs_ccheck.specs.Resolving.{GivesStmt, HasTyped, HaveStmts, all_stmts_in, typed_in};
ghost use Rattle.xs_ccheck.specs.StmtTyping as spec;

use crate::exprs::TypedNode;
use std::alloc::Global;
use xs_base::fault_codes::WORD_NOT_ALLOWED;
use xs_base::{Memory, Refuse};
use xs_ctree::{Slot, StmtNode, Typed};
use xs_ctypes::{is_condition, types_differ, worded};

// A node whose parts are there, as a statement.
pub(crate) fn done(typed: &mut Typed, node: StmtNode) -> Result<u32, Refuse>
    requires { stmt_fits (arena_of typed.old) (length typed.old.stmts.items) node ≡ true }
    ensures { GivesStmt result typed.old typed.new
        (Good (stmt_from (arena_of typed.old) (Some node) (expr_in typed.old)
        (stmt_in typed.old))) }
{
    let index = typed.add_stmt(node)?;
    Ok(index)
}

// A statement that does nothing.
pub(crate) fn nothing(typed: &mut Typed) -> Result<u32, Refuse>
    ensures { GivesStmt result typed.old typed.new (Good tree.nothing) }
{
    let index = typed.add_block(&[], &[])?;
    Ok(index)
}

// A block with the slots that it declares.
pub(crate) fn block(typed: &mut Typed, slots: &[Slot], body: &[u32]) -> Result<u32, Refuse>
    requires { HaveStmts typed.old body.now }
    ensures { GivesStmt result typed.old typed.new
        (Good (tree.Block slots.now (tree.stmts_of (all_stmts_in typed.old body.now)))) }
{
    let index = typed.add_block(slots, body)?;
    Ok(index)
}

// A statement with a condition, whose parts are there.
pub(crate) fn conditional(
    alloc: Global,
    typed: &mut Typed,
    line: u32,
    test: TypedNode,
    node: StmtNode,
) -> Result<u32, Refuse>
    requires { stmt_fits (arena_of typed.old) (length typed.old.stmts.items) node ≡ true }
    ensures { GivesStmt result typed.old typed.new
        (judged line (spec.conditional (typed_in typed.old test)
        (stmt_from (arena_of typed.old) (Some node) (expr_in typed.old)
        (stmt_in typed.old)))) }
{
    if is_condition(test.of_type) {
        done(typed, node)
    } else {
        Err(types_differ(alloc, line))
    }
}

// An if whose other branch does nothing.
pub(crate) fn without_else(
    alloc: Global,
    typed: &mut Typed,
    line: u32,
    test: TypedNode,
    branch: u32,
) -> Result<u32, Refuse>
    requires test_in { HasTyped typed.old test }
    requires branch_in { HasStmt typed.old branch }
    ensures { GivesStmt result typed.old typed.new
        (judged line (spec.conditional (typed_in typed.old test)
        (tree.If line (expr_in typed.old test.node) (stmt_in typed.old branch) tree.nothing))) }
{
    let other = typed.add_block(&[], &[])?;
    conditional(
        alloc,
        typed,
        line,
        test,
        StmtNode::If(line, test.node, branch, other),
    )
}

// A word that leaves something is allowed inside of it; `stands` says whether it is inside.
pub(crate) fn leaving(
    alloc: Global,
    typed: &mut Typed,
    line: u32,
    stands: bool,
    node: StmtNode,
    word: &[u8],
) -> Result<u32, Refuse>
    requires { stmt_fits (arena_of typed.old) (length typed.old.stmts.items) node ≡ true }
    ensures { GivesStmt result typed.old typed.new
        (judged line (spec.leaving stands (stmt_from (arena_of typed.old) (Some node)
        (expr_in typed.old) (stmt_in typed.old)) word.now)) }
{
    if stands {
        done(typed, node)
    } else {
        Err(Refuse::Fault(worded(alloc, line, WORD_NOT_ALLOWED, word)?))
    }
}

// Two indices.
pub(crate) fn pair(alloc: Global, first: u32, second: u32) -> Result<Vec<u32>, Memory>
    ensures { IfOk result (λ all. all.items ≡ first ∷ second ∷ []) }
{
    let mut all = Vec::new(alloc);
    all.push(first)?;
    all.push(second)?;
    Ok(all)
}
