//! The intended tree.

ghost use Rattle.std.specs.Prelude.{◌≡◌, [], ◌∷◌, ◌++◌, IfOk, Ok, map};
ghost use Rattle.xs_base.specs.Reading.{GivesBy};
ghost use Rattle.xs_cstmt.specs.StatementTree as t;
ghost use Rattle.xs_cstmt.specs.StatementViews.{stmt_tree, stmt_trees};
ghost use Rattle.xs_csyn.specs.FileViews.{file_tree, item_tree, item_trees};
ghost use Rattle.xs_stub.specs.Intended as spec;
ghost use Rattle.xs_stub.specs.Intended.{glue_tree};

use crate::glue_stmts::{begun, perl, xsub_body};
use std::alloc::Global;
use xs_base::{Bytes, Items, Memory, Refuse, with_more};
use xs_csyn::{CFile, FileItem, PerlForm, PerlWord, Stmt, XsFun};
use xs_iface::{Module, Xsub, underscored};
use xs_values::DataModel;

// The glue function of an XSUB.
fn xsub_tree(alloc: Global, x: &Xsub) -> Result<FileItem, Memory>
    ensures { IfOk result (λ i. item_tree i ≡ spec.xsub_tree x.now) }
{
    let name = x.glue.copy(alloc)?;
    let body = xsub_body(alloc, x)?;
    let line = x.line;
    Ok(FileItem::XsFun(XsFun { line, name, body }))
}

fn with_item(mut all: Items<FileItem>, one: FileItem) -> Result<Items<FileItem>, Memory>
    ensures { IfOk result (λ items. item_trees items ≡ item_trees all ++ item_tree one ∷ []) }
{
    all.push(one)?;
    Ok(all)
}

// The glue functions, in the order of the XS file.
#[tactic(auto, using(std::proofs::Common::append_assoc))]
fn xsub_trees(alloc: Global, xsubs: &[Xsub]) -> Result<Items<FileItem>, Memory>
    ensures { IfOk result (λ all. item_trees all ≡ map spec.xsub_tree xsubs.now) }
{
    let mut all = Items::new(alloc);
    for xsub in xsubs {
        let one = xsub_tree(alloc, xsub)?;
        all = with_item(all, one)?;
    }
    Ok(all)
}

// A glue function is registered under its full name.
fn registration(alloc: Global, line: u32, x: &Xsub) -> Result<Stmt, Memory>
    ensures { IfOk result (λ s. stmt_tree s ≡ spec.registration line x.now) }
{
    let full = x.full.copy(alloc)?;
    let function = x.glue.copy(alloc)?;
    let keeps = false;
    Ok(perl(
        line,
        PerlForm::NewXs {
            keeps,
            full,
            function,
        },
    ))
}

#[tactic(auto, using(std::proofs::Common::append_assoc))]
fn with_registrations(
    alloc: Global,
    mut all: Vec<Stmt>,
    line: u32,
    xsubs: &[Xsub],
) -> Result<Vec<Stmt>, Memory>
    ensures { IfOk result (λ v. stmt_trees v
        ≡ stmt_trees all ++ map (spec.registration line) xsubs.now) }
{
    for xsub in xsubs {
        let one = registration(alloc, line, xsub)?;
        all = with_more(all, one)?;
    }
    Ok(all)
}

// What stands in the boot function.
fn boot_body(alloc: Global, line: u32, xsubs: &[Xsub]) -> Result<Vec<Stmt>, Memory>
    ensures { IfOk result (λ v. stmt_trees v
        ≡ t.Perl line spec.dxsargs ∷ map (spec.registration line) xsubs.now
        ++ t.Perl line spec.return_yes ∷ []) }
{
    let all = with_registrations(alloc, begun(alloc, line)?, line, xsubs)?;
    with_more(all, perl(line, PerlForm::Word(PerlWord::XsReturnYes)))
}

// The boot function registers each glue function.
fn boot_tree(alloc: Global, m: &Module) -> Result<FileItem, Memory>
    ensures { IfOk result (λ i. item_tree i ≡ spec.boot_tree m.now) }
{
    let mut name = Bytes::from_slice(alloc, b"boot_")?;
    name.append(underscored(alloc, m.boot.as_slice())?.as_slice())?;
    let line = m.boot_line;
    let body = boot_body(alloc, line, m.xsubs.as_slice())?;
    Ok(FileItem::XsFun(XsFun { line, name, body }))
}

/// The tree that the glue text of a module is meant to be, with the lines of the XS file. Each node
/// of a statement has the line of that statement: what belongs to the boot function has the line of
/// MODULE, an input that of its parameter, the author's code its own, what makes the returned value
/// of RETVAL the line that names RETVAL in OUTPUT, and all else the line of the interface.
///
/// No fault of the grammar can come: where there is no tree, memory runs out.
#[tactic(auto, unfolding(crate::specs::Intended::glue_tree))]
pub fn glue_tree(alloc: Global, m: &Module) -> Result<CFile, Refuse>
    ensures { GivesBy file_tree result (Ok (glue_tree m.now)) }
{
    let xsubs = xsub_trees(alloc, m.xsubs.as_slice())?;
    let items = with_item(xsubs, boot_tree(alloc, m)?)?;
    Ok(CFile {
        model: DataModel::Lp64,
        defines: Items::new(alloc),
        items,
    })
}
