//! The names that a file gives a meaning.
ghost use Rattle.std.specs.Prelude.{◌≡◌, IfOk};
ghost use Rattle.xs_csyn.specs.FileViews.{item_tree};
ghost use Rattle.xs_ctypes.specs.FileNames.{AddsName, FindsFirst, names_in};
ghost use Rattle.xs_ctypes.specs.FileNames as spec;

use indexmap::IndexMap;
use std::alloc::Global;
use std::marker::Model;
use xs_base::Memory;
use xs_csyn::FileItem;

/// The names that a file gives a meaning, each with the index of the first item that has it.
#[derive(Drop)]
pub struct FileNames<'a> {
    items: &'a [FileItem],
    first: IndexMap<Vec<u8>, usize>,
}

impl<'a> Model for FileNames<'a> {
    ghost use Rattle.xs_ctypes.specs.FileNames as spec;

    ghost Value = { spec.FileNames };

    ghost use Rattle.xs_ctypes.specs.FileNames.{FindsFirst, names_in};

    ghost view = { λ n. names_in n.items.now };

    ghost invariant = { λ n. FindsFirst (names_in n.items.now).functions n.first.entries };
}

impl<'a> FileNames<'a> {
    /// The names of a file's items.
    pub fn new(alloc: Global, items: &'a [FileItem]) -> Result<FileNames<'a>, Memory>
        ensures { IfOk result (λ names. names ≡ names_in items.now) }
    {
        let first = first_places(alloc, items)?;
        Ok(FileNames { items, first })
    }

    /// The index of the function of a name among the file's items.
    pub fn index_of(&self, name: &[u8]) -> Option<usize>
        ensures { result ≡ spec.index_of self.now.functions name.now }
    {
        self.first.get(name).copied()
    }
}

fn item_name(item: &FileItem) -> &[u8]
    ensures { result.now ≡ spec.item_name (item_tree item.now) }
{
    match item {
        FileItem::XsFun(f) => f.name.as_slice(),
        _ => &[],
    }
}

// Adds the index of a name, where no item before it has the name.
fn add_name(
    alloc: Global,
    first: &mut IndexMap<Vec<u8>, usize>,
    name: &[u8],
    at: usize,
) -> Result<(), Memory>
    ensures { IfOk result (λ _. AddsName name.now at first.old.entries first.new.entries) }
{
    if !first.contains_key(name) {
        first.insert(Vec::from_slice(alloc, name)?, at)?;
    }
    Ok(())
}

// Each name with the index of the first item that has it.
fn first_places(alloc: Global, items: &[FileItem]) -> Result<IndexMap<Vec<u8>, usize>, Memory>
    ensures { IfOk result (λ first. FindsFirst (names_in items.now).functions first.entries) }
{
    let mut first = IndexMap::new(alloc);
    for (at, item) in items.iter().enumerate() {
        add_name(alloc, &mut first, item_name(item), at)?;
    }
    Ok(first)
}
