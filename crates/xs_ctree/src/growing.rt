//! Code while it is made: parts come before the whole.
ghost use Rattle.std.specs.Prelude.{◌≡◌, ◌+◌, ◌<◌, ◌++◌, ◌^◌, IfOk, OnErr, Some, [], length, map, true};
ghost use Rattle.std.specs.List.{list_all};
ghost use Rattle.xs_ctree.specs.TypedTree as tree;

use crate::node::{ExprNode, FunctionNode, Group, GroupNode, Range, StmtNode};
use crate::typed::Typed;
use crate::value_type::{RecordType, Slot};
use std::alloc::Global;
use xs_base::{Bytes, Memory};
use xs_perlapi::Row;
use xs_values::{CInt, Kind};

// The index that comes after so many.
fn next_index(count: usize) -> Result<u32, Memory>
    ensures { IfOk result (λ n. n ≡ count) }
{
    match u32::try_from(count) {
        Ok(index) => Ok(index),
        Err(_) => Err(Memory),
    }
}

// The range of so many elements after so many others.
fn range_after(before: usize, count: usize) -> Result<Range, Memory>
    ensures start { IfOk result (λ r. r.start ≡ before) }
    ensures count { IfOk result (λ r. r.count ≡ count) }
    ensures few { IfOk result (λ r. r.start + r.count < 2 ^ 32) }
{
    let start = next_index(before)?;
    let count = next_index(count)?;
    match start.checked_add(count) {
        None => Err(Memory),
        Some(_) => Ok(Range { start, count }),
    }
}

impl Typed {
    ghost use Rattle.xs_ctree.specs.Arena.{all_below, expr_fits, expr_from, stmt_fits, stmt_from};
    ghost use Rattle.xs_ctree.specs.Functions.{arena_of, expr_in, functions_in, records_in, stmt_in};
    ghost use Rattle.xs_ctree.specs.Growth.{AddsExpr, AddsFunction, AddsGroup, AddsGroups, AddsLabels, AddsParts, AddsRecord, AddsSlots, AddsStmt, AddsText, groups_in, has_stmts};

    /// Code of no record and no function.
    pub fn new(alloc: Global) -> Typed
        ensures functions { functions_in result ≡ [] }
        ensures records { records_in result ≡ [] }
    {
        Typed {
            exprs: Vec::new(alloc),
            stmts: Vec::new(alloc),
            parts: Vec::new(alloc),
            slots: Vec::new(alloc),
            labels: Vec::new(alloc),
            groups: Vec::new(alloc),
            texts: Vec::new(alloc),
            records: Vec::new(alloc),
            functions: Vec::new(alloc),
        }
    }

    /// Adds an expression whose parts are there, and gives its index.
    pub fn add_expr(&mut self, node: ExprNode) -> Result<u32, Memory>
        requires { expr_fits (arena_of self.old) (length self.old.exprs.items) node ≡ true }
        ensures { IfOk result (λ i. AddsExpr self.old
            (expr_from (arena_of self.old) (Some node) (expr_in self.old)) i self.new) }
    {
        let index = next_index(self.exprs.len())?;
        self.exprs.push(node)?;
        Ok(index)
    }

    /// Adds a statement whose parts are there, and gives its index.
    pub fn add_stmt(&mut self, node: StmtNode) -> Result<u32, Memory>
        requires { stmt_fits (arena_of self.old) (length self.old.stmts.items) node ≡ true }
        ensures { IfOk result (λ i. AddsStmt self.old
            (stmt_from (arena_of self.old) (Some node) (expr_in self.old) (stmt_in self.old)) i
            self.new) }
    {
        let index = next_index(self.stmts.len())?;
        self.stmts.push(node)?;
        Ok(index)
    }

    // Adds the parts of a list, and gives their range.
    fn add_parts(&mut self, parts: &[u32]) -> Result<Range, Memory>
        ensures { IfOk result (λ r. AddsParts self.old parts.now r self.new) }
    {
        let range = range_after(self.parts.len(), parts.len())?;
        self.parts.extend_from_slice(parts)?;
        Ok(range)
    }

    // Adds slots, and gives their range.
    fn add_slots(&mut self, slots: &[Slot]) -> Result<Range, Memory>
        ensures { IfOk result (λ r. AddsSlots self.old slots.now r self.new) }
    {
        let range = range_after(self.slots.len(), slots.len())?;
        self.slots.extend_from_slice(slots)?;
        Ok(range)
    }

    // Adds a text, and gives its index.
    fn add_text(&mut self, text: Bytes) -> Result<u32, Memory>
        ensures { IfOk result (λ t. AddsText self.old text t self.new) }
    {
        let index = next_index(self.texts.len())?;
        self.texts.push(text)?;
        Ok(index)
    }

    /// Adds a text literal.
    pub fn add_letters(&mut self, text: Bytes) -> Result<u32, Memory>
        ensures { IfOk result (λ i. AddsExpr self.old (tree.Letters text) i self.new) }
    {
        let text = self.add_text(text)?;
        self.add_expr(ExprNode::Letters(text))
    }

    /// Adds a row of Perl's API with its operands.
    pub fn add_row(&mut self, line: u32, row: Row, operands: &[u32]) -> Result<u32, Memory>
        requires { all_below (length self.old.exprs.items) operands.now ≡ true }
        ensures { IfOk result (λ i. AddsExpr self.old
            (tree.Api line row (tree.exprs_of (map (expr_in self.old) operands.now))) i self.new) }
    {
        let range = self.add_parts(operands)?;
        self.add_expr(ExprNode::Api(line, row, range))
    }

    /// Adds the call of a helper with its arguments.
    pub fn add_call(&mut self, line: u32, function: u32, args: &[u32]) -> Result<u32, Memory>
        requires { all_below (length self.old.exprs.items) args.now ≡ true }
        ensures { IfOk result (λ i. AddsExpr self.old
            (tree.Call line function (tree.exprs_of (map (expr_in self.old) args.now))) i
            self.new) }
    {
        let range = self.add_parts(args)?;
        self.add_expr(ExprNode::Call(line, function, range))
    }

    /// Adds `croak` with its format and operands.
    pub fn add_croak(&mut self, line: u32, format: Bytes, operands: &[u32]) -> Result<u32, Memory>
        requires { all_below (length self.old.exprs.items) operands.now ≡ true }
        ensures { IfOk result (λ i. AddsExpr self.old
            (tree.Croak line format (tree.exprs_of (map (expr_in self.old) operands.now))) i
            self.new) }
    {
        let text = self.add_text(format)?;
        let range = self.add_parts(operands)?;
        self.add_expr(ExprNode::Croak(line, text, range))
    }

    /// Adds `croak_xs_usage` with the text of the parameters.
    pub fn add_usage(&mut self, line: u32, text: Bytes) -> Result<u32, Memory>
        ensures { IfOk result (λ i. AddsExpr self.old (tree.Usage line text) i self.new) }
    {
        let text = self.add_text(text)?;
        self.add_expr(ExprNode::Usage(line, text))
    }

    /// Adds a block with the slots that it declares and its statements.
    pub fn add_block(&mut self, slots: &[Slot], body: &[u32]) -> Result<u32, Memory>
        requires { all_below (length self.old.stmts.items) body.now ≡ true }
        ensures { IfOk result (λ i. AddsStmt self.old
            (tree.Block slots.now (tree.stmts_of (map (stmt_in self.old) body.now))) i self.new) }
    {
        let slots = self.add_slots(slots)?;
        let body = self.add_parts(body)?;
        self.add_stmt(StmtNode::Block(slots, body))
    }

    /// Adds a `switch` whose value is there, with the kind in which its labels are compared, and
    /// its groups, whose statements are there.
    pub fn add_switch(
        &mut self,
        line: u32,
        kind: Kind,
        value: u32,
        groups: &[Group],
    ) -> Result<u32, Memory>
        requires value { value < length self.old.exprs.items }
        requires groups { list_all (has_stmts self.old) groups.now ≡ true }
        ensures { IfOk result (λ i. AddsStmt self.old
            (tree.Switch line kind (expr_in self.old value) (groups_in self.old groups.now)) i
            self.new) }
    {
        let range = self.add_groups(groups)?;
        self.add_stmt(StmtNode::Switch(line, kind, value, range))
    }

    // Adds the labels of a group, and gives their range.
    fn add_labels(&mut self, labels: &[Option<CInt>]) -> Result<Range, Memory>
        ensures { IfOk result (λ r. AddsLabels self.old labels.now r self.new) }
    {
        let range = range_after(self.labels.len(), labels.len())?;
        self.labels.extend_from_slice(labels)?;
        Ok(range)
    }

    // Adds the labels and the statements of a group, and gives its node.
    fn add_group(&mut self, group: &Group) -> Result<GroupNode, Memory>
        requires { has_stmts self.old group.now ≡ true }
        ensures { IfOk result (λ n. AddsGroup self.old group.now n self.new) }
    {
        let labels = self.add_labels(group.labels.as_slice())?;
        let body = self.add_parts(group.body.as_slice())?;
        Ok(GroupNode { labels, body })
    }

    // Adds groups, and gives their range.
    fn add_groups(&mut self, groups: &[Group]) -> Result<Range, Memory>
        requires { list_all (has_stmts self.old) groups.now ≡ true }
        ensures { IfOk result (λ r. AddsGroups self.old groups.now r self.new) }
    {
        let range = range_after(self.groups.len(), groups.len())?;
        for group in groups {
            let node = self.add_group(group)?;
            self.groups.push(node)?;
        }
        Ok(range)
    }

    /// Adds the registration of a function under a Perl name, which `cv` keeps or not.
    pub fn add_register(&mut self, full: Bytes, function: u32, keeps: bool) -> Result<u32, Memory>
        ensures { IfOk result (λ i. AddsStmt self.old (tree.Register full function keeps) i
            self.new) }
    {
        let text = self.add_text(full)?;
        self.add_stmt(StmtNode::Register(text, function, keeps))
    }

    /// Adds a record.
    pub fn add_record(&mut self, record_type: RecordType) -> Result<(), Memory>
        ensures { IfOk result (λ _. AddsRecord self.old record_type self.new) }
    {
        if self.records.len() >= u32::MAX as usize {
            return Err(Memory);
        }
        self.records.push(record_type)?;
        Ok(())
    }

    /// Adds a function whose body is there.
    pub fn add_function(&mut self, function: FunctionNode) -> Result<(), Memory>
        requires { function.body < length self.old.stmts.items }
        ensures { IfOk result (λ _. AddsFunction self.old function self.new) }
    {
        if self.functions.len() >= u32::MAX as usize {
            return Err(Memory);
        }
        self.functions.push(function)?;
        Ok(())
    }
}
