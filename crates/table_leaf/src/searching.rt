// Searches for a rowid in a page by halves of its array.
ghost use Rattle.std.specs.Prelude.{◌≡◌, ◌-◌, ◌<◌, ◌≤◌, ◌↔◌, ◌<ℤ◌, ℕ, ℤ, List, IfSome, IsTrue};
ghost use Rattle.put_spec.specs.Children.{Belongs};
ghost use Rattle.put_spec.specs.Steps.{Spelled, views_in};
ghost use Rattle.page_shape.specs.Shapes.{AreCells, HasShape};
ghost use Rattle.table_leaf.specs.Searches.{Climbs, IsNarrowed, rowids_in};

use cell_codec::CellView;
use page_shape::{Shape, view_at};

/// The indexes among which that of a rowid is.
#[derive(Clone, Copy)]
pub struct Span {
    /// The cells in front of this one have a lesser rowid.
    pub low: usize,
    /// This cell, and those behind it, have none.
    pub high: usize,
}

// Whether the rowid of a cell is less than another.
fn is_less(view: &CellView, rowid: i64) -> bool
    ensures { IsTrue result ↔ (view.now.rowid <ℤ rowid) }
{
    view.rowid < rowid
}

// The half of some indexes among which that of a rowid is.
fn half(page: &[u8], shape: Shape, span: Span, rowid: i64) -> Option<Span>
    requires shape { HasShape page.now shape }
    requires some { span.low < span.high }
    requires within { span.high ≤ shape.count }
    ensures fewer { IfSome result (λ next. next.high - next.low < span.high - span.low) }
    ensures order { IfSome result (λ next. next.low ≤ next.high) }
    ensures within { IfSome result (λ next. next.high ≤ shape.count) }
    ensures narrowed { IfSome result (λ next. (cells : List Spelled) (right : ℕ) (bound : ℤ) → AreCells page.now shape.number shape.usable shape.kind cells right → Climbs bound (rowids_in cells)
        → IsNarrowed rowid (rowids_in cells) span.low span.high → IsNarrowed rowid (rowids_in cells) next.low next.high) }
{
    let middle = span.low + (span.high - span.low) / 2;
    let Some(view) = view_at(page, shape, middle) else {
        return None;
    };
    if is_less(&view, rowid) {
        return Some(Span {
            low: middle + 1,
            high: span.high,
        });
    }
    Some(Span {
        low: span.low,
        high: middle,
    })
}

/// The index at which a rowid belongs in a page whose rowids do not fall. None where a cell does not decode that is read.
pub fn index_of(page: &[u8], shape: Shape, rowid: i64) -> Option<usize>
    requires { HasShape page.now shape }
    ensures within { IfSome result (λ at. at ≤ shape.count) }
    ensures index { IfSome result (λ at. (cells : List Spelled) (right : ℕ) (bound : ℤ) → AreCells page.now shape.number shape.usable shape.kind cells right → Climbs bound (rowids_in cells) → Belongs rowid at (views_in cells)) }
{
    let mut span = Span {
        low: 0,
        high: shape.count,
    };
    while span.low < span.high {
        let Some(next) = half(page, shape, span, rowid) else {
            return None;
        };
        span = next;
    }
    Some(span.low)
}
