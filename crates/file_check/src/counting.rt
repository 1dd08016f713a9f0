// What a sound file has.
ghost use Rattle.std.specs.Prelude.{◌≡◌, length, min};

use database_spec::Catalog;

/// What a sound file has.
#[derive(Clone, Copy, Debug, PartialEq, Eq)]
pub struct Census {
    /// How many pages there are.
    pub pages: u32,
    /// How many trees there are: that of the schema, and those of tables and indexes.
    pub trees: u32,
}

// How many trees a catalog has. No file has more than there are pages.
fn count_trees(catalog: &Catalog) -> u32
    ensures { result ≡ min (length catalog.now.roots) 4294967295 }
{
    catalog.roots.as_slice().len().min(u32::MAX as usize) as u32
}

/// What a file of so many pages has.
pub(crate) fn counted(pages: u32, catalog: &Catalog) -> Census
    ensures { result ≡ record { pages = pages; trees = min (length catalog.now.roots) 4294967295 } }
{
    Census {
        pages,
        trees: count_trees(catalog),
    }
}
