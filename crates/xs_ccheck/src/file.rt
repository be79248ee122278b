//! Files: a C file becomes code whose names are resolved and whose types are checked.
ghost use Rattle.std.specs.Prelude.{◌≡◌, ◌∷◌, ◌++◌, IfOk, map, []};
ghost use Rattle.xs_base.specs.Reading.{GivesBy};
ghost use Rattle.xs_cstmt.specs.StatementTree.{stmts_of};
ghost use Rattle.xs_cstmt.specs.StatementViews.{stmt_tree};
ghost use Rattle.xs_csyn.specs.FileViews.{file_tree, item_tree, xs_fun_tree};
ghost use Rattle.xs_ctree.specs.Functions.{code_of, functions_in, records_in};
ghost use Rattle.xs_ctree.specs.Growth.{AddsStmt};
ghost use Rattle.xs_ctree.specs.TypedTree as tree;
ghost use Rattle.xs_ccheck.specs.FileTyping as spec;
ghost use Rattle.xs_ccheck.specs.Resolving.{GivesFunction, GivesFunctions, GivesNone, HaveStmts, Stand, all_stmts_in};
ghost use Rattle.xs_ctypes.specs.FileNames.{names_in};

use crate::enclosing::outermost;
use crate::stmts::stmts;
use std::alloc::Global;
use xs_base::fault_codes::DECLARED_TWICE;
use xs_base::{Bytes, Fault, FileOf, Memory, Refuse};
use xs_csyn::{CFile, Define, FileItem, PerlForm, PerlWord, Stmt, XsFun};
use xs_ctree::{FunctionNode, Sort, StmtNode, Typed};
use xs_ctypes::{
    FileNames, Scope, both, first_of, is_boot_name, is_earlier, not_built, noted, settled, worded,
};
use xs_perlapi::Row;

// The line of a statement `dXSARGS;`.
fn entry_word(line: u32, word: PerlWord) -> Option<u32>
    ensures { result ≡ spec.entry_word line word }
{
    match word {
        PerlWord::DXsArgs => Some(line),
        _ => None,
    }
}

fn entry_form(line: u32, form: &PerlForm) -> Option<u32>
    ensures { result ≡ spec.entry_form line form.now }
{
    match form {
        PerlForm::Word(word) => entry_word(line, *word),
        PerlForm::ResetStack
        | PerlForm::SetIndex(_)
        | PerlForm::NewXs { .. }
        | PerlForm::NewRecord { .. }
        | PerlForm::Unused(_) => None,
    }
}

#[tactic(auto, using(xs_cstmt::proofs::ViewsCompute::views))]
fn entry_line(s: &Stmt) -> Option<u32>
    ensures { result ≡ spec.entry_line (stmt_tree s.now) }
{
    match s {
        Stmt::Perl(line, form) => entry_form(*line, form),
        Stmt::Block(_, _)
        | Stmt::Empty(_)
        | Stmt::Declare(_)
        | Stmt::Effect(_, _)
        | Stmt::If(_, _, _)
        | Stmt::IfElse(_, _, _, _)
        | Stmt::While(_, _, _)
        | Stmt::DoWhile(_, _, _)
        | Stmt::For(_, _, _)
        | Stmt::Switch(_, _, _)
        | Stmt::Break(_)
        | Stmt::Continue(_)
        | Stmt::Return(_, _) => None,
    }
}

// The line of the entry of an XS function.
fn entry_of(body: &[Stmt]) -> Option<u32>
    ensures { result ≡ spec.entry_of (stmts_of (map stmt_tree body.now)) }
{
    match body.first() {
        None => None,
        Some(first) => entry_line(first),
    }
}

// What stands behind the entry.
fn behind_entry(entry: Option<u32>, body: &[Stmt]) -> &[Stmt]
    ensures { stmts_of (map stmt_tree result.now)
        ≡ spec.behind_entry entry (stmts_of (map stmt_tree body.now)) }
{
    if entry.is_none() {
        return body;
    }
    match body.split_first() {
        None => body,
        Some((_, rest)) => rest,
    }
}

// The entry of an XS function.
fn entry(typed: &mut Typed, line: u32) -> Result<u32, Memory>
    ensures { IfOk result (λ i. AddsStmt typed.old
        (tree.Effect (tree.Api line Row.Entry tree.NoExprs)) i typed.new) }
{
    let row = typed.add_row(line, Row::Entry, &[])?;
    typed.add_stmt(StmtNode::Effect(row))
}

// An index in front of others.
fn in_front(alloc: Global, first: u32, rest: &[u32]) -> Result<Vec<u32>, Memory>
    ensures { IfOk result (λ all. all.items ≡ first ∷ rest.now) }
{
    let mut all = Vec::new(alloc);
    all.push(first)?;
    all.extend_from_slice(rest)?;
    Ok(all)
}

// The entry before the statements behind it.
fn with_entry(
    alloc: Global,
    typed: &mut Typed,
    line: Option<u32>,
    body: Vec<u32>,
) -> Result<Vec<u32>, Memory>
    requires { HaveStmts typed.old body.items }
    ensures { IfOk result (λ all. Stand typed.old
        (spec.with_entry line (all_stmts_in typed.old body.items)) all.items typed.new) }
{
    match line {
        None => Ok(body),
        Some(line) => {
            let first = entry(typed, line)?;
            in_front(alloc, first, body.as_slice())
        }
    }
}

fn sort_of(is_boot: bool) -> Sort
    ensures { result ≡ spec.sort_of is_boot }
{
    if is_boot {
        Sort::Boot
    } else {
        Sort::XsFunction
    }
}

// A function of these statements is added.
fn add_function(
    alloc: Global,
    typed: &mut Typed,
    scope: Scope,
    name: Bytes,
    is_boot: bool,
    body: &[u32],
) -> Result<(), Memory>
    requires { HaveStmts typed.old body.now }
    ensures functions { IfOk result (λ _. functions_in typed.new ≡ functions_in typed.old
        ++ spec.function_done name is_boot scope (all_stmts_in typed.old body.now) ∷ []) }
    ensures records { IfOk result (λ _. records_in typed.new ≡ records_in typed.old) }
{
    let slots = scope.slots_after(alloc, 0)?;
    let body = typed.add_block(slots.as_slice(), body)?;
    typed.add_function(FunctionNode {
        name,
        sort: sort_of(is_boot),
        slots: scope.into_slots(),
        body,
    })
}

// The function at an index among the file's items.
#[tactic(auto, unfolding(crate::specs::FileTyping::function))]
fn function(
    alloc: Global,
    typed: &mut Typed,
    names: &FileNames,
    at: usize,
    f: &XsFun,
) -> Result<(), Refuse>
    ensures { GivesFunction result typed.old typed.new
        (spec.function names.now at (xs_fun_tree f.now)) }
{
    let name = f.name.as_slice();
    let is_boot = is_boot_name(name);
    let entry = entry_of(f.body.as_slice());
    let behind = behind_entry(entry, f.body.as_slice());
    let mut scope = Scope::new(alloc);
    let body = stmts(alloc, typed, &mut scope, names, outermost(is_boot), behind)?;
    if is_earlier(names.index_of(name), at) {
        return Err(Refuse::Fault(worded(alloc, f.line, DECLARED_TWICE, name)?));
    }
    let body = with_entry(alloc, typed, entry, body)?;
    let name = f.name.copy(alloc)?;
    add_function(alloc, typed, scope, name, is_boot, body.as_slice())?;
    Ok(())
}

fn item(
    alloc: Global,
    typed: &mut Typed,
    names: &FileNames,
    at: usize,
    item: &FileItem,
) -> Result<(), Refuse>
    ensures { GivesFunction result typed.old typed.new
        (spec.item names.now at (item_tree item.now)) }
{
    match item {
        FileItem::XsFun(f) => function(alloc, typed, names, at, f),
        FileItem::Typedef(t) => Err(not_built(alloc, t.line)),
        FileItem::Record(r) => Err(not_built(alloc, r.line)),
        FileItem::Prototype(head) => Err(not_built(alloc, head.line)),
        FileItem::Function(f) => Err(not_built(alloc, f.head.line)),
    }
}

// The functions of the items of a file with these names.
fn functions_of(alloc: Global, names: &FileNames, items: &[FileItem]) -> Result<Typed, Refuse>
    ensures { GivesFunctions result (spec.functions names.now 0 (map item_tree items.now)) }
{
    let mut typed = Typed::new(alloc);
    let mut least = None;
    for (at, here) in items.iter().enumerate() {
        let part = item(alloc, &mut typed, names, at, here);
        least = noted(least, part)?;
    }
    settled(typed, least)
}

fn functions(alloc: Global, items: &[FileItem]) -> Result<Typed, Refuse>
    ensures { GivesFunctions result
        (spec.functions (names_in items.now) 0 (map item_tree items.now)) }
{
    let names = FileNames::new(alloc, items)?;
    functions_of(alloc, &names, items)
}

// Names that are defined as integers, which are not built yet.
fn defines(alloc: Global, defines: &[Define]) -> Result<(), Refuse>
    ensures { GivesNone result (spec.defines defines.now) }
{
    let mut least = None;
    for d in defines {
        let fault = Fault::not_built(alloc, FileOf::Text, d.line);
        least = Some(first_of(least, fault));
    }
    settled((), least)
}

/// Resolves the names of a C file and checks its types. The faults are of the text, from
/// `UNKNOWN_NAME` to `WORD_NOT_ALLOWED` of the fault codes, or `NOT_BUILT` at the line of a form
/// that is not built yet, whose parts are not looked at. Of all faults of nodes whose parts have
/// none, in all functions, the one on the lowest line is reported; of several on one line that of
/// the least code, and of those the first in the text.
#[tactic(auto, unfolding(crate::specs::FileTyping::typed_of, crate::specs::FileTyping::code_meant))]
pub fn check_file(alloc: Global, f: CFile) -> Result<Typed, Refuse>
    ensures { GivesBy code_of result (spec.typed_of (file_tree f)) }
{
    let defined = defines(alloc, f.defines.as_slice());
    let typed = functions(alloc, f.items.as_slice());
    let (_, typed) = both(defined, typed)?;
    Ok(typed)
}
