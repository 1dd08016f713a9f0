// Reads the cells of a page.
ghost use Rattle.std.specs.Prelude.{◌≡◌, ◌+◌, ◌*◌, ◌<◌, ◌≤◌, ℕ, List, IfOk, IfSome, IfNone, length};
ghost use Rattle.common_spec.specs.Reading.{ReadsOrWants, OrFault};
ghost use Rattle.format_spec.specs.declared.CellView.{CellView};
ghost use Rattle.format_spec.specs.declared.PageKind.{PageKind};
ghost use Rattle.format_spec.specs.Page.{IsPage, cell_place};
ghost use Rattle.format_spec.specs.Sizes.{IsUsable};
ghost use Rattle.page_spec.specs.Rooms.{array_end};
ghost use Rattle.page_layout.specs.declared.reading.PageFault.TheVariants.{Memory};
ghost use Rattle.page_layout.specs.Views.{HasViews, HasKind, HasPageFault, IsMemory, IsViewAt, AreViews};

use crate::marks::{mark, no_marks};
use crate::places::{count_of, place_of};
use crate::put::{header_length, header_place, room};
use cell_codec::{CellView, PageKind, read_cell};
use refusal::Rule;
use std::alloc::{AllocError, Global};

/// Why a page has no list of cells.
#[derive(Debug, Drop)]
pub enum PageFault {
    /// The page is not accepted: refusal 40.
    BadPage { rule: Rule },
    /// Memory ran out.
    Memory(AllocError),
}

impl From<AllocError> for PageFault {
    ghost from_gives = { λ error fault. fault ≡ Memory error };

    fn from(error: AllocError) -> PageFault {
        PageFault::Memory(error)
    }
}

/// The kind of a page by its type. `None` where that is none of the four.
pub fn page_kind(page: &[u8], number: u32) -> Option<PageKind>
    requires { 480 ≤ length page.now }
    ensures found { IfSome result (HasKind page.now number) }
    ensures none { IfNone result ((kind : PageKind) → ¬ HasKind page.now number kind) }
{
    match page[header_place(number)] {
        13 => Some(PageKind::TableLeaf),
        5 => Some(PageKind::TableInterior),
        10 => Some(PageKind::IndexLeaf),
        2 => Some(PageKind::IndexInterior),
        _ => None,
    }
}

// A cell and its place in the page.
#[derive(Clone, Copy)]
struct PlacedView {
    place: usize,
    view: CellView,
}

// The same view, field by field: what was written in small parts, and is copied in large ones, keeps a processor waiting.
fn in_parts(view: &CellView) -> CellView
    ensures { result ≡ view.now }
{
    CellView {
        size: view.size,
        rowid: view.rowid,
        child: view.child,
        payload: view.payload,
        local_at: view.local_at,
        local: view.local,
        overflow: view.overflow,
    }
}

// The cell that the array of a page has at an index. `None` where it does not decode, or leaves its bounds.
fn read_view(
    page: &[u8],
    number: u32,
    usable: u32,
    kind: PageKind,
    count: usize,
    index: usize,
) -> Option<PlacedView>
    requires usable { IsUsable usable }
    requires whole { usable ≤ length page.now }
    requires array { array_end number kind count ≤ usable }
    requires within { index < count }
    ensures place { IfSome result (λ cell. cell.place ≡ cell_place page.now number kind index) }
    ensures found { IfSome result (λ cell. IsViewAt page.now number usable kind count index cell.view) }
    ensures none { IfNone result ((view : CellView) → ¬ IsViewAt page.now number usable kind count index view) }
{
    let array = header_place(number) + header_length(kind);
    let place = place_of(page, number, kind, index as u32);
    if place < array + 2 * count || place > usable as usize {
        return None;
    }
    let Ok(view) = read_cell(kind, usable, &page[place..usable as usize]) else {
        return None;
    };
    if place + room(view.size as usize) > usable as usize {
        return None;
    }
    Some(PlacedView {
        place,
        view: in_parts(&view),
    })
}

// The views of the cells of a page that counts so many. `None` where one does not decode, leaves its bounds, or overlaps another.
fn read_views(
    alloc: Global,
    page: &[u8],
    number: u32,
    usable: u32,
    kind: PageKind,
    count: usize,
) -> Result<Option<Vec<CellView>>, AllocError>
    requires usable { IsUsable usable }
    requires whole { usable ≤ length page.now }
    requires array { array_end number kind count ≤ usable }
    ensures many { IfOk result (λ answer. IfSome answer (λ views. length views.items ≡ count)) }
    ensures found { IfOk result (λ answer. IfSome answer (λ views. AreViews page.now number usable kind count views.items)) }
    ensures none { IfOk result (λ answer. IfNone answer ((views : List CellView) → length views ≡ count → ¬ AreViews page.now number usable kind count views)) }
{
    let mut unmarked = no_marks(alloc, usable as usize)?;
    let marks = unmarked.as_mut_slice();
    let mut views = Vec::new(alloc);
    for index in 0..count {
        let Some(cell) = read_view(page, number, usable, kind, count, index) else {
            return Ok(None);
        };
        if !mark(marks, cell.place, room(cell.view.size as usize)) {
            return Ok(None);
        }
        views.push(cell.view)?;
    }
    Ok(Some(views))
}

/// The cells of a page in the order of its array, as views (Database File Format, section 1.6). Refuses with the rule `kind` a page whose type is none of the four, and with `cells` one whose cells do not decode, leave their bounds or overlap. Freeblocks are not read. The time is linear in the page.
pub fn cells(
    alloc: Global,
    page: &[u8],
    number: u32,
    usable: u32,
) -> Result<Vec<CellView>, PageFault>
    requires usable { IsUsable usable }
    requires whole { usable ≤ length page.now }
    ensures { ReadsOrWants (λ views. views.items) IsMemory (OrFault (HasViews page.now number usable) (HasPageFault page.now number usable)) result }
{
    let Some(kind) = page_kind(page, number) else {
        return Err(PageFault::BadPage { rule: Rule::Kind });
    };
    let header = header_place(number);
    let count = count_of(page, number);
    if header + header_length(kind) + 2 * count > usable as usize {
        return Err(PageFault::BadPage { rule: Rule::Cells });
    }
    match read_views(alloc, page, number, usable, kind, count)? {
        Some(views) => Ok(views),
        None => Err(PageFault::BadPage { rule: Rule::Cells }),
    }
}
