// Reads the table leaf pages of small files: 4096 bytes with no reserved ones (Database File Format, section 1.6).
ghost use Rattle.std.specs.Prelude.{◌≡◌, ℕ, ◌+◌, ◌*◌, ◌≤◌, ◌↔◌, List, IfOk, IfSome, IfNone, IsTrue, length};
ghost use Rattle.format_spec.specs.declared.PageKind.TheVariants.{TableLeaf};
ghost use Rattle.format_spec.specs.Page.{IsPage, array_place};
ghost use Rattle.page_layout.specs.Views.{HasKind};
ghost use Rattle.small_file.specs.Pages.{HoldsCells, placed};

use cell_codec::{CellView, PageKind};
use page_layout::{PageFault, cells, page_kind, place_of};
use std::alloc::{AllocError, Global};

/// The bytes of a page.
pub const PAGE_SIZE: usize = 4096;

/// Where a cell stands in its page, and what it holds.
#[derive(Clone, Copy)]
pub struct PlacedCell {
    pub place: usize,
    pub view: CellView,
}

fn is_table_leaf(page: &[u8], number: u32) -> bool
    requires { length page.now ≡ 4096 }
    ensures { IsTrue result ↔ HasKind page.now number TableLeaf }
{
    matches!(page_kind(page, number), Some(PageKind::TableLeaf))
}

// The cells of a table leaf with these views.
fn with_places(
    alloc: Global,
    page: &[u8],
    number: u32,
    views: &[CellView],
) -> Result<Vec<PlacedCell>, AllocError>
    requires long { length page.now ≡ 4096 }
    requires array { array_place number TableLeaf + 2 * length views.now ≤ 4096 }
    ensures { IfOk result (λ cells. cells.items ≡ placed page.now number views.now) }
{
    let mut cells = Vec::new(alloc);
    for (index, view) in views.iter().enumerate() {
        let place = place_of(page, number, PageKind::TableLeaf, index as u32);
        cells.push(PlacedCell { place, view: *view })?;
    }
    Ok(cells)
}

/// The cells of a table leaf page with this number, in the order of its array. `None` where the bytes are not such a page.
pub fn read_page(
    alloc: Global,
    page: &[u8],
    number: u32,
) -> Result<Option<Vec<PlacedCell>>, AllocError>
    requires { length page.now ≡ 4096 }
    ensures found { IfOk result (λ answer. IfSome answer (λ cells. HoldsCells page.now number cells.items)) }
    ensures none { IfOk result (λ answer. IfNone answer ((cells : List (List ℕ)) (right : ℕ) → IsPage page.now number 4096 TableLeaf cells right → ⊥)) }
{
    if !is_table_leaf(page, number) {
        return Ok(None);
    }
    match cells(alloc, page, number, PAGE_SIZE as u32) {
        Ok(views) => Ok(Some(with_places(alloc, page, number, &views)?)),
        Err(fault) => match fault {
            PageFault::BadPage { .. } => Ok(None),
            PageFault::Memory(error) => Err(error),
        },
    }
}
