// The shape of a page, and cells that are read one by one.
ghost use Rattle.std.specs.Prelude.{◌≡◌, ◌<◌, ◌≤◌, ℕ, List, IfSome, length, slice_index_or};
ghost use Rattle.format_spec.specs.Sizes.{IsUsable};
ghost use Rattle.put_spec.specs.Steps.{Spelled, child_page};
ghost use Rattle.page_shape.specs.Shapes.{AreCells, HasShape};

use cell_codec::{CellView, PageKind, read_cell};
use page_layout::{count_of, header_length, header_place, page_kind, place_of, right_child};

/// A page whose cells are not decoded: what its header says of them.
#[derive(Clone, Copy)]
pub struct Shape {
    pub number: u32,
    pub usable: u32,
    pub kind: PageKind,
    /// How many cells it counts.
    pub count: usize,
}

/// The shape of a page, where its type is one of the four and its array lies within the usable bytes.
pub fn shape_of(page: &[u8], number: u32, usable: u32) -> Option<Shape>
    requires usable { IsUsable usable }
    requires whole { usable ≤ length page.now }
    ensures shape { IfSome result (HasShape page.now) }
    ensures number { IfSome result (λ shape. shape.number ≡ number) }
    ensures usable { IfSome result (λ shape. shape.usable ≡ usable) }
{
    let Some(kind) = page_kind(page, number) else {
        return None;
    };
    let count = count_of(page, number);
    if header_place(number) + header_length(kind) + 2 * count > usable as usize {
        return None;
    }
    Some(Shape {
        number,
        usable,
        kind,
        count,
    })
}

/// The cell at an index, if the bytes there are one.
pub fn view_at(page: &[u8], shape: Shape, at: usize) -> Option<CellView>
    requires shape { HasShape page.now shape }
    requires within { at < shape.count }
    ensures { IfSome result (λ view. (cells : List Spelled) (right : ℕ) (d : Spelled) → AreCells page.now shape.number shape.usable shape.kind cells right → (slice_index_or cells at d).view ≡ view) }
{
    let place = place_of(page, shape.number, shape.kind, at as u32);
    let end = shape.usable as usize;
    if place > end {
        return None;
    }
    match read_cell(shape.kind, shape.usable, &page[place..end]) {
        Ok(view) => Some(view),
        Err(_) => None,
    }
}

/// The page that a page names at an index: the left child of the cell there, or behind all cells the right child.
pub fn child_at(page: &[u8], shape: Shape, at: usize) -> Option<u32>
    requires shape { HasShape page.now shape }
    ensures { IfSome result (λ child. (cells : List Spelled) (right : ℕ) → AreCells page.now shape.number shape.usable shape.kind cells right → child ≡ child_page at cells right) }
{
    if at >= shape.count {
        return Some(right_child(page, shape.number, shape.kind));
    }
    match view_at(page, shape, at) {
        Some(view) => Some(view.child),
        None => None,
    }
}
