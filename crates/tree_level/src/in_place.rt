// Changes the cells of a page in place.
ghost use Rattle.std.specs.Prelude.{◌≤◌, ◌+◌, ℕ, List, [], false};
ghost use Rattle.std.specs.List.{All};
ghost use Rattle.format_spec.specs.declared.PageKind.{PageKind};
ghost use Rattle.format_spec.specs.Page.{IsPage, cell_count};
ghost use Rattle.page_layout.specs.Accepted.{IsChangeable, OfCells};
ghost use Rattle.page_layout.specs.Views.{HasKind};
ghost use Rattle.page_spec.specs.Rooms.{IsOneCell, free_bytes, needs as bytes_needed};
ghost use Rattle.tree_level.specs.Changes.{behind, changed};

use page_layout::{insert_cell, remove_cell};
use rbu_value::Bytes;

// Takes the cell at an index out of a page, where it goes.
fn take_out(page: &mut [u8], number: u32, usable: u32, at: u32, goes: bool)
    requires page { IsChangeable page.old number usable }
    requires within { behind at goes ≤ cell_count page.old number }
    ensures { OfCells page.old number usable (λ kind cells right. IsPage page.new number usable kind (changed cells at goes []) right) }
{
    if goes {
        remove_cell(page, number, usable, at);
    }
}

// Puts cells into a page one behind the other, from an index on.
fn put_in(page: &mut [u8], number: u32, usable: u32, at: u32, comes: &[Bytes])
    requires page { IsChangeable page.old number usable }
    requires within { at ≤ cell_count page.old number }
    requires comes { (kind : PageKind) × HasKind page.old number kind × All (IsOneCell kind usable) comes.now }
    requires room { OfCells page.old number usable (λ kind cells right. bytes_needed cells + bytes_needed comes.now ≤ free_bytes number usable kind []) }
    ensures { OfCells page.old number usable (λ kind cells right. IsPage page.new number usable kind (changed cells at false comes.now) right) }
{
    let mut place = at;
    for cell in comes {
        match insert_cell(page, number, usable, place, cell.as_slice()) {
            Ok(()) => place += 1,
            Err(_) => unreachable!(),
        }
    }
}

/// Changes the cells of a page that has room for what they become: at an index one goes, or none does, and others come there.
pub fn change_bytes(page: &mut [u8], number: u32, usable: u32, at: u32, goes: bool, comes: &[Bytes])
    requires page { IsChangeable page.old number usable }
    requires within { behind at goes ≤ cell_count page.old number }
    requires comes { (kind : PageKind) × HasKind page.old number kind × All (IsOneCell kind usable) comes.now }
    requires room { OfCells page.old number usable (λ kind cells right. bytes_needed (changed cells at goes comes.now) ≤ free_bytes number usable kind []) }
    ensures { OfCells page.old number usable (λ kind cells right. IsPage page.new number usable kind (changed cells at goes comes.now) right) }
{
    take_out(page, number, usable, at, goes);
    put_in(page, number, usable, at, comes);
}
