// The trees of a catalog, by rising roots.
ghost use Rattle.std.specs.Prelude.{◌≡◌, ◌++◌, IfOk, IsPermutation, map};
ghost use Rattle.std.specs.List.Sorted.{IsNonDecreasingBy};
ghost use Rattle.file_check.specs.Trees.{OfIndex, catalog_trees as catalog_trees_of, entry_trees, own_trees, root_of, seen};

use database_spec::{Catalog, Entry};
use schema_spec::{Index, SqlFault};
use std::alloc::{AllocError, Global};

/// A tree of a catalog, lent.
#[derive(Clone, Copy)]
pub(crate) enum CatalogTree<'a> {
    /// The tree of the schema.
    Schema,
    /// The tree of a table.
    Table(&'a Entry),
    /// The tree of an index of a table.
    Index(&'a Entry, &'a (u32, Result<Index, SqlFault>)),
}

impl<'a> CatalogTree<'a> {
    /// The number of its root page.
    pub(crate) fn root(&self) -> u32
        ensures { result ≡ root_of (seen self.now) }
    {
        match self {
            CatalogTree::Schema => 1,
            CatalogTree::Table(entry) => entry.root,
            CatalogTree::Index(_, index) => index.0,
        }
    }
}

// Puts the trees of the indexes of a table behind others.
fn push_indexes<'a>(entry: &'a Entry, trees: &mut Vec<CatalogTree<'a>>) -> Result<(), AllocError>
    ensures { IfOk result (λ done. map seen trees.new.items ≡ map seen trees.old.items ++ map (OfIndex entry.now) entry.now.indexes) }
{
    let mut left = entry.indexes.as_slice();
    while let [index, rest @ ..] = left {
        trees.push(CatalogTree::Index(entry, index))?;
        left = rest;
    }
    Ok(())
}

// Puts the tree of a table behind others, where it has one.
fn push_own<'a>(entry: &'a Entry, trees: &mut Vec<CatalogTree<'a>>) -> Result<(), AllocError>
    ensures { IfOk result (λ done. map seen trees.new.items ≡ map seen trees.old.items ++ own_trees entry.now) }
{
    if entry.root == 0 {
        return Ok(());
    }
    trees.push(CatalogTree::Table(entry))?;
    Ok(())
}

// Puts the tree of a table, and those of its indexes, behind others.
fn push_entry<'a>(entry: &'a Entry, trees: &mut Vec<CatalogTree<'a>>) -> Result<(), AllocError>
    ensures { IfOk result (λ done. map seen trees.new.items ≡ map seen trees.old.items ++ entry_trees entry.now) }
{
    push_own(entry, trees)?;
    push_indexes(entry, trees)
}

// The trees of a catalog, table by table.
fn catalog_trees<'a>(
    alloc: Global,
    catalog: &'a Catalog,
) -> Result<Vec<CatalogTree<'a>>, AllocError>
    ensures { IfOk result (λ trees. map seen trees.items ≡ catalog_trees_of catalog.now) }
{
    let mut trees = Vec::new(alloc);
    trees.push(CatalogTree::Schema)?;
    let mut left = catalog.tables.as_slice();
    while let [named, rest @ ..] = left {
        push_entry(&named.entry, &mut trees)?;
        left = rest;
    }
    Ok(trees)
}

/// The trees of a catalog by their roots.
pub(crate) fn trees_by_roots<'a>(
    alloc: Global,
    catalog: &'a Catalog,
) -> Result<Vec<CatalogTree<'a>>, AllocError>
    ensures same { IfOk result (λ trees. IsPermutation (catalog_trees_of catalog.now) (map seen trees.items)) }
    ensures sorted { IfOk result (λ trees. IsNonDecreasingBy (λ tree. root_of (seen tree)) trees.items) }
{
    let mut trees = catalog_trees(alloc, catalog)?;
    trees.sort_unstable_by_key(|tree| tree.root());
    Ok(trees)
}
