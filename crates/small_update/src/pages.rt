// The target's pages after the update.
ghost use Rattle.std.specs.Prelude.{◌≡◌, ◌↔◌, IsTrue, ◌<◌, ◌≤◌, ◌+◌, [], ◌∷◌, ◌++◌, length, map, take, drop};
ghost use Rattle.std.specs.List.{between};
ghost use Rattle.byteorder.specs.Endian.{big_bytes};
ghost use Rattle.format_spec.specs.Page.{packed_leaf};
ghost use Rattle.small_spec.specs.Inserts.{page_room, new_first_page, new_pages};

use byte_fields::{put_u32, u32_at};
use byteorder::{BigEndian, ByteOrder};
use small_spec::TargetRow;

// Whether one page has room for the rows.
pub fn fits_page(rows: &[TargetRow]) -> bool
    ensures { IsTrue result ↔ (page_room rows.now ≤ 4096) }
{
    let mut room = 8;
    for row in rows {
        room += row.cell.as_slice().len() + 2;
        if room > 4096 {
            return false;
        }
    }
    true
}

// Raises the change counter and the schema cookie of page 1.
fn raise_counters(page: &mut [u8])
    requires { 96 ≤ length page.old }
    ensures { page.new ≡ new_first_page page.old }
{
    let counter = u32_at(page, 24).wrapping_add(1);
    let cookie = u32_at(page, 40).wrapping_add(1);
    put_u32(page, 24, counter);
    put_u32(page, 40, cookie);
    put_u32(page, 92, counter);
}

// Writes a table leaf's header: its cells begin at a place, and it has no freeblock and no fragment.
fn write_header(page: &mut [u8], cells: u16, place: u16)
    requires { 8 ≤ length page.old }
    ensures { page.new
        ≡ (13 ∷ (big_bytes 2 0 ++ (big_bytes 2 cells ++ (big_bytes 2 place ++ 0 ∷ [])))) ++ drop 8 page.old }
{
    page[0] = 13;
    BigEndian::write_u16(&mut page[1..], 0);
    BigEndian::write_u16(&mut page[3..], cells);
    BigEndian::write_u16(&mut page[5..], place);
    page[7] = 0;
}

// Writes a cell at a place, and the place into the array of places.
fn write_cell(page: &mut [u8], entry: usize, place: usize, cell: &[u8])
    requires below { entry + 2 ≤ place }
    requires inside { place + length cell.now ≤ length page.old }
    requires short { length page.old < 65536 }
    ensures { page.new ≡ take entry page.old
        ++ (big_bytes 2 place ++ (between (entry + 2) place page.old ++ (cell.now ++ drop (place + length cell.now) page.old))) }
{
    BigEndian::write_u16(&mut page[entry..entry + 2], place as u16);
    page[place..place + cell.len()].copy_from_slice(cell);
}

// Writes the table leaf whose cells lie from the page's end downwards.
fn write_leaf(page: &mut [u8], rows: &[TargetRow])
    requires short { length page.old < 65536 }
    requires room { page_room rows.now ≤ length page.old }
    ensures { page.new ≡ packed_leaf (length page.old) (map (λ row. row.cell) rows.now) }
{
    page.fill(0);
    let mut place = page.len();
    for (k, row) in rows.iter().enumerate() {
        let cell = row.cell.as_slice();
        place -= cell.len();
        write_cell(page, 8 + 2 * k, place, cell);
    }
    write_header(page, rows.len() as u16, place as u16);
}

/// Writes both pages of the target after the update over the old ones, in place.
pub fn write_pages(target: &mut [u8], rows: &[TargetRow])
    requires long { length target.old ≡ 8192 }
    requires room { page_room rows.now ≤ 4096 }
    ensures { target.new ≡ new_pages target.old rows.now }
{
    raise_counters(&mut target[..4096]);
    write_leaf(&mut target[4096..], rows);
}
