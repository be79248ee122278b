//! The names of the types that a file declares.
ghost use Rattle.std.specs.Prelude.{◌≡◌, [], IfOk, OnOk};
ghost use Rattle.xs_cinput.specs.TypeReader.{with_name};
ghost use Rattle.xs_csyn.specs.FileReader.{types_after};
ghost use Rattle.xs_csyn.specs.FileViews.{item_trees, type_of};

use crate::{CFile, FileItem};
use std::alloc::Global;
use xs_base::{Bytes, Memory};
use xs_cinput::TypeNames;

/// Adds the name of the type that an item of a file declares, if it declares one.
pub fn note(alloc: Global, names: &mut TypeNames, item: &FileItem) -> Result<(), Memory>
    ensures { OnOk result (names.new ≡ with_name names.old (type_of item.now)) }
{
    match item {
        FileItem::Typedef(one) => names.add(alloc, one.name.as_slice()),
        FileItem::Record(one) => names.add(alloc, one.name.as_slice()),
        FileItem::Prototype(_) | FileItem::Function(_) | FileItem::XsFun(_) => Ok(()),
    }
}

// The names of the types that these items declare.
fn declared_by(alloc: Global, items: &[FileItem]) -> Result<TypeNames, Memory>
    ensures { IfOk result (λ names. names ≡ types_after [] (item_trees items.now)) }
{
    let mut names = TypeNames::new(alloc);
    for item in items {
        note(alloc, &mut names, item)?;
    }
    Ok(names)
}

/// The names of the types that a file declares.
pub fn type_names(alloc: Global, f: &CFile) -> Result<TypeNames, Memory>
    ensures { IfOk result (λ names. names ≡ types_after [] (item_trees f.now.items)) }
{
    declared_by(alloc, f.items.as_slice())
}
