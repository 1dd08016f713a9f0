// Where the cells of an accepted page stand.
ghost use Rattle.std.specs.Prelude.{◌≡◌, ◌+◌, ◌*◌, ◌<◌, ◌≤◌, ℕ, List, [], max, length, slice_index_or};
ghost use Rattle.format_spec.specs.declared.PageKind.{PageKind};
ghost use Rattle.format_spec.specs.Page.{IsPage, RightChild, array_place, cell_count, cell_place, header_place as place_of_header};
ghost use Rattle.format_spec.specs.Sizes.{IsUsable};
ghost use Rattle.page_spec.specs.Rooms.{array_end};
ghost use Rattle.page_layout.specs.Accepted.{IsAccepted};
ghost use Rattle.page_layout.specs.Views.{HasKind};

use crate::put::{header_length, header_place};
use crate::reading::page_kind;
use byte_fields::{u16_at, u32_at};
use cell_codec::{PageKind, read_cell};

/// Where the cell at an index of the array begins, in bytes from the start of the page (Database File Format, section 1.6).
pub fn place_of(page: &[u8], number: u32, kind: PageKind, at: u32) -> usize
    requires { array_end number kind (at + 1) ≤ length page.now }
    ensures value { result ≡ cell_place page.now number kind at }
    ensures most { result < 65536 }
{
    let array = header_place(number) + header_length(kind);
    usize::from(u16_at(page, array + 2 * at as usize))
}

/// The page number of the last child of an interior page; 0 for a leaf, which has none.
pub fn right_child(page: &[u8], number: u32, kind: PageKind) -> u32
    requires { array_place number kind ≤ length page.now }
    ensures value { RightChild kind page.now (place_of_header number) result }
    ensures of_page { (usable : ℕ) (cells : List (List ℕ)) (right : ℕ) → IsPage page.now number usable kind cells right → result ≡ right }
{
    match kind {
        PageKind::TableLeaf | PageKind::IndexLeaf => 0,
        PageKind::TableInterior | PageKind::IndexInterior => {
            u32_at(page, header_place(number) + 8)
        }
    }
}

/// The kind of an accepted page.
pub fn kind_of(page: &[u8], number: u32) -> PageKind
    requires long { 480 ≤ length page.now }
    requires kind { (kind : PageKind) × HasKind page.now number kind }
    ensures { HasKind page.now number result }
{
    match page_kind(page, number) {
        Some(kind) => kind,
        None => unreachable!(),
    }
}

/// How many cells a page counts.
pub fn count_of(page: &[u8], number: u32) -> usize
    requires { 480 ≤ length page.now }
    ensures value { result ≡ cell_count page.now number }
    ensures most { result < 65536 }
{
    usize::from(u16_at(page, header_place(number) + 3))
}

/// Some bytes of a page.
#[derive(Clone, Copy)]
pub struct Span {
    pub place: usize,
    pub size: usize,
}

/// The bytes of the cell that the array of an accepted page has at an index.
pub fn span_of(page: &[u8], number: u32, usable: u32, kind: PageKind, at: usize) -> Span
    requires usable { IsUsable usable }
    requires whole { usable ≤ length page.now }
    requires accepted { IsAccepted page.now number usable }
    requires kind { HasKind page.now number kind }
    requires within { at < cell_count page.now number }
    ensures place { result.place ≡ cell_place page.now number kind at }
    ensures size { (cells : List (List ℕ)) (right : ℕ) → IsPage page.now number usable kind cells right → result.size ≡ length (slice_index_or cells at []) }
    ensures inside { result.place + max 4 result.size ≤ usable }
{
    let place = place_of(page, number, kind, at as u32);
    match read_cell(kind, usable, &page[place..usable as usize]) {
        Ok(view) => Span {
            place,
            size: view.size as usize,
        },
        Err(_) => unreachable!(),
    }
}
