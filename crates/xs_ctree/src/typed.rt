//! The code of a file, and how it is read.
ghost use Rattle.std.specs.Option.{option_copied};
ghost use Rattle.std.specs.Prelude.{◌≡◌, ◌∷◌, ◌<◌, ◌^◌, IfOk, IfSome, MatchOption, [], length, slice_get, slice_index_or, true};
ghost use Rattle.xs_ctree.specs.Arena.{Fits, arena, ranged};

use crate::node::{Callable, ExprNode, FunctionNode, GroupNode, Range, StmtNode, is_boot};
use crate::value_type::{RecordType, Slot};
use std::alloc::Global;
use xs_base::{Bytes, Memory};
use xs_values::CInt;

/// A file whose names are resolved and whose types are right.
#[derive(Debug, Drop)]
pub struct Typed {
    pub exprs: Vec<ExprNode>,
    pub stmts: Vec<StmtNode>,
    /// The parts of lists: indices of expressions, or of statements.
    pub parts: Vec<u32>,
    /// The slots that blocks declare.
    pub slots: Vec<Slot>,
    /// The labels of groups, None for `default`.
    pub labels: Vec<Option<CInt>>,
    /// The groups of switches.
    pub groups: Vec<GroupNode>,
    pub texts: Vec<Bytes>,
    pub records: Vec<RecordType>,
    pub functions: Vec<FunctionNode>,
    ghost fits: { Fits (arena texts.items parts.items slots.items labels.items groups.items
        exprs.items stmts.items) functions.items },
    ghost few: { length functions.items < 2 ^ 32 },
    ghost few_parts: { length parts.items < 2 ^ 32 },
    ghost few_labels: { length labels.items < 2 ^ 32 },
    ghost few_groups: { length groups.items < 2 ^ 32 },
}

impl Typed {
    ghost use Rattle.xs_ctree.specs.Arena.{expr_fits, expr_from, stmt_fits, stmt_from};
    ghost use Rattle.xs_ctree.specs.Functions.{Callee, arena_of, boot_at, code_of, expr_in, function_at, name_of, records_in, stmt_in};

    /// The node of the expression at an index. Its tree is made of its parts' trees.
    pub fn expr(&self, i: u32) -> Option<ExprNode>
        ensures fits { IfSome result (λ n. expr_fits (arena_of self.now) i n ≡ true) }
        ensures tree { expr_in self.now i
            ≡ expr_from (arena_of self.now) result (expr_in self.now) }
    {
        expr_node(&self.exprs, i)
    }

    /// The node of the statement at an index. Its tree is made of its parts' trees.
    pub fn stmt(&self, i: u32) -> Option<StmtNode>
        ensures fits { IfSome result (λ n. stmt_fits (arena_of self.now) i n ≡ true) }
        ensures tree { stmt_in self.now i
            ≡ stmt_from (arena_of self.now) result (expr_in self.now) (stmt_in self.now) }
    {
        stmt_node(&self.stmts, i)
    }

    /// The first part of a range, and the range of the others.
    pub fn first_part(&self, range: Range) -> Option<(u32, Range)>
        ensures { MatchOption result (ranged self.now.parts.items range ≡ [])
            (λ p. ranged self.now.parts.items range ≡ p.0 ∷ ranged self.now.parts.items p.1) }
    {
        first_in(&self.parts, range)
    }

    /// The first label of a range, and the range of the others.
    pub fn first_label(&self, range: Range) -> Option<(Option<CInt>, Range)>
        ensures { MatchOption result (ranged self.now.labels.items range ≡ [])
            (λ p. ranged self.now.labels.items range ≡ p.0 ∷ ranged self.now.labels.items p.1) }
    {
        first_in(&self.labels, range)
    }

    /// The first group of a range, and the range of the others.
    pub fn first_group(&self, range: Range) -> Option<(GroupNode, Range)>
        ensures { MatchOption result (ranged self.now.groups.items range ≡ [])
            (λ p. ranged self.now.groups.items range ≡ p.0 ∷ ranged self.now.groups.items p.1) }
    {
        first_in(&self.groups, range)
    }

    /// The record of a number.
    pub fn record(&self, n: u32) -> Option<&RecordType>
        ensures { option_copied result ≡ slice_get (records_in self.now) n }
    {
        self.records.get(n as usize)
    }

    /// The text of a number, which is empty where there is no such text.
    pub fn text(&self, at: u32) -> &[u8]
        ensures { result.now ≡ slice_index_or self.now.texts.items at [] }
    {
        match self.texts.get(at as usize) {
            None => &[],
            Some(text) => text.as_slice(),
        }
    }

    /// The number of the boot function.
    pub fn boot(&self) -> Option<u32>
        ensures { result ≡ boot_at (code_of self.now) }
    {
        let mut n: u32 = 0;
        for f in &self.functions {
            if is_boot(f.sort) {
                return Some(n);
            }
            n += 1;
        }
        None
    }

    /// The name of the function of a number, which is empty where there is no such function.
    pub fn function_name(&self, alloc: Global, f: Option<u32>) -> Result<Bytes, Memory>
        ensures { IfOk result (λ name. name ≡ name_of (function_at (code_of self.now) f)) }
    {
        match f {
            None => Ok(Bytes::new(alloc)),
            Some(f) => match function_in(&self.functions, f) {
                None => Ok(Bytes::new(alloc)),
                Some(function) => function.name.copy(alloc),
            },
        }
    }

    /// The function of a number, as it is entered.
    pub fn callee(&self, f: Option<u32>) -> Option<Callable>
        ensures { Callee self.now f result }
    {
        match f {
            None => None,
            Some(f) => match function_in(&self.functions, f) {
                None => None,
                Some(function) => Some(Callable {
                    slots: function.slots.len(),
                    body: function.body,
                }),
            },
        }
    }
}

fn function_in(functions: &Vec<FunctionNode>, f: u32) -> Option<&FunctionNode>
    ensures { option_copied result ≡ slice_get functions.now.items f }
{
    functions.get(f as usize)
}

fn expr_node(nodes: &Vec<ExprNode>, i: u32) -> Option<ExprNode>
    ensures { result ≡ slice_get nodes.now.items i }
{
    nodes.get(i as usize).copied()
}

fn stmt_node(nodes: &Vec<StmtNode>, i: u32) -> Option<StmtNode>
    ensures { result ≡ slice_get nodes.now.items i }
{
    nodes.get(i as usize).copied()
}

fn element<T: Copy>(items: &Vec<T>, i: u32) -> Option<T>
    ensures { result ≡ slice_get items.now.items i }
{
    items.get(i as usize).copied()
}

// The first element of a range, and the range of the others.
fn first_in<T: Copy>(items: &Vec<T>, range: Range) -> Option<(T, Range)>
    requires { length items.now.items < 2 ^ 32 }
    ensures { MatchOption result (ranged items.now.items range ≡ [])
        (λ p. ranged items.now.items range ≡ p.0 ∷ ranged items.now.items p.1) }
{
    if range.count == 0 {
        return None;
    }
    match element(items, range.start) {
        None => None,
        Some(first) => Some((
            first,
            Range {
                start: range.start + 1,
                count: range.count - 1,
            },
        )),
    }
}
