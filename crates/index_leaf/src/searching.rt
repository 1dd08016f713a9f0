// Searches for an entry in a page by halves of its array.
ghost use Rattle.std.specs.Prelude.{◌≡◌, ◌+◌, ◌-◌, ◌<◌, ◌≤◌, ℕ, List, IfSome, length, slice_index_or};
ghost use Rattle.byte_fields.specs.Bytes.{part_of};
ghost use Rattle.page_shape.specs.Shapes.{AreCells, HasShape};
ghost use Rattle.put_spec.specs.Steps.{Spelled};
ghost use Rattle.record_codec.specs.Faults.{HasHeader};
ghost use Rattle.index_leaf.specs.Searches.{HoldsWhole, IsFound, IsJudged, IsWithin};

use cell_codec::CellView;
use key_order::{Key, KeyOrder, compare_with, key_of};
use page_layout::place_of;
use page_shape::{Shape, view_at};
use std::cmp::Ordering;

/// Where an entry stands among the cells of a page, or belongs.
#[derive(Clone, Copy)]
pub enum Found {
    /// A cell has an equal entry.
    Present,
    /// It belongs in front of the cell at this index, or behind all others.
    At(usize),
}

// The payload of a cell that begins at a place, where no overflow chain has a part of it.
fn whole_part<'a>(page: &'a [u8], place: usize, view: &CellView) -> Option<&'a [u8]>
    ensures { IfSome result (λ entry. (view.now.payload - view.now.local ≡ 0) × (entry.now ≡ part_of page.now (place + view.now.local_at) view.now.local)) }
{
    if view.payload > u64::from(view.local) || place > page.len() {
        return None;
    }
    let start = place + view.local_at as usize;
    let end = start + view.local as usize;
    if end > page.len() {
        return None;
    }
    Some(&page[start..end])
}

// The payload of the cell at an index, where no overflow chain has a part of it.
fn payload_at(page: &[u8], shape: Shape, at: usize) -> Option<&[u8]>
    requires shape { HasShape page.now shape }
    requires within { at < shape.count }
    ensures { IfSome result (λ entry. (cells : List Spelled) (right : ℕ) (d : Spelled) → AreCells page.now shape.number shape.usable shape.kind cells right → HoldsWhole (slice_index_or cells at d) entry.now) }
{
    let Some(view) = view_at(page, shape, at) else {
        return None;
    };
    let place = place_of(page, shape.number, shape.kind, at as u32);
    whole_part(page, place, &view)
}

// The order of the entry of the cell at an index and a key.
fn order_at(
    page: &[u8],
    shape: Shape,
    at: usize,
    key: Key<'_>,
    order: &KeyOrder,
) -> Option<Ordering>
    requires shape { HasShape page.now shape }
    requires within { at < shape.count }
    ensures { IfSome result (λ found. (payload : List ℕ) (cells : List Spelled) (right : ℕ) (d : Spelled) → HasHeader payload key.entry.types.now key.entry.bodies.now → AreCells page.now shape.number shape.usable shape.kind cells right → IsJudged order.now payload found (slice_index_or cells at d)) }
{
    let Some(entry) = payload_at(page, shape, at) else {
        return None;
    };
    compare_with(entry, key, order)
}

// The index to look at next: the last one first, since entries often come in order, then the one in the middle.
fn probe(low: usize, high: usize, count: usize) -> usize
    requires { low < high }
    ensures under { low ≤ result }
    ensures inside { result < high }
{
    if high == count {
        high - 1
    } else {
        low + (high - low) / 2
    }
}

/// Looks for an entry among the cells of a page, by halves, the last one first. None where a cell does not decode that is read, or has an overflow chain.
pub fn look(page: &[u8], shape: Shape, payload: &[u8], order: &KeyOrder) -> Option<Found>
    requires { HasShape page.now shape }
    ensures within { IfSome result (IsWithin shape.count) }
    ensures found { IfSome result (λ found. (cells : List Spelled) (right : ℕ) → AreCells page.now shape.number shape.usable shape.kind cells right → IsFound order.now payload.now cells found) }
{
    let Some(key) = key_of(payload) else {
        return None;
    };
    let mut low = 0;
    let mut high = shape.count;
    while low < high {
        let at = probe(low, high, shape.count);
        match order_at(page, shape, at, key, order) {
            Some(Ordering::Less) => low = at + 1,
            Some(Ordering::Greater) => high = at,
            Some(Ordering::Equal) => return Some(Found::Present),
            None => return None,
        }
    }
    Some(Found::At(low))
}
