// Pages that SQLite wrote, and changes of a page by one cell.
ghost use Rattle.std.specs.Prelude.{◌≡◌, ◌≤◌, IfOk, IsTrue, length};
ghost use Rattle.std.specs.List.{All};
ghost use Rattle.page_spec.specs.Rooms.{IsOneCell};
ghost use Rattle.format_spec.specs.Sizes.{IsUsable};

use cell_codec::{PageKind, push_varint, read_cell};
use page_layout::{
    NoRoom, PageFault, cells, insert_cell, page_kind, place_of, rebuild, remove_cell, right_child,
};
use rbu_value::Bytes;
use refusal::Rule;
use std::alloc::{AllocError, Global};
use std::test::Fail;

// A page that SQLite 3.40.1 wrote, and its cells as a program apart from this one read them.
#[derive(Clone, Copy)]
struct Sample {
    number: u32,
    usable: u32,
    kind: PageKind,
    // The bytes from the header on.
    front: &'static [u8],
    // Those up to the end of the page; between them and the first lie zeros.
    back: &'static [u8],
    // How long the cells are, and their bytes in order.
    sizes: &'static [u8],
    cells: &'static [u8],
    right: u32,
}

const SAMPLES: [Sample; 5] = [
    // A freeblock, two fragmented bytes, and cells that do not lie in order.
    Sample {
        number: 2,
        usable: 512,
        kind: PageKind::TableLeaf,
        front: b"\x0d\x01\xd3\x00\x04\x01\xca\x02\x01\xe1\x01\xf6\x01\xca\x01\xec\x01\xec",
        back: b"\x07\x04\x03\x00\x15four\x00\x00\x00\x0e\x00\x00\x00\x00\x00\x00\x00\x00\x00\x00\x09\x02\x03\x00\x19second\x06\x06\x03\x00\x13six\x00\x00\x08\x03\x03\x00\x17three",
        sizes: b"\x0b\x0a\x09\x08",
        cells: b"\x09\x02\x03\x00\x19second\x08\x03\x03\x00\x17three\x07\x04\x03\x00\x15four\x06\x06\x03\x00\x13six",
        right: 0,
    },
    // Twelve reserved bytes, and a freeblock.
    Sample {
        number: 2,
        usable: 500,
        kind: PageKind::TableLeaf,
        front: b"\x0d\x01\xe0\x00\x02\x01\xd1\x00\x01\xd1\x01\xea\x01\xea",
        back: b"\x0d\x02\x03\x00!second one\x00\x00\x00\x0a\x00\x00\x00\x00\x00\x00\x08\x03\x03\x00\x17three\x00\x00\x00\x00\x00\x00\x00\x00\x00\x00\x00\x00",
        sizes: b"\x0f\x0a",
        cells: b"\x0d\x02\x03\x00!second one\x08\x03\x03\x00\x17three",
        right: 0,
    },
    // The first page of that database.
    Sample {
        number: 1,
        usable: 500,
        kind: PageKind::TableLeaf,
        front: b"\x0d\x00\x00\x00\x01\x01\xbc\x00\x01\xbc",
        back: b"6\x01\x06\x17\x0f\x0f\x01]tablett\x02CREATE TABLE t(k integer primary key, v)\x00\x00\x00\x00\x00\x00\x00\x00\x00\x00\x00\x00",
        sizes: b"8",
        cells: b"6\x01\x06\x17\x0f\x0f\x01]tablett\x02CREATE TABLE t(k integer primary key, v)",
        right: 0,
    },
    Sample {
        number: 3,
        usable: 512,
        kind: PageKind::IndexInterior,
        front: b"\x02\x00\x00\x00\x02\x01\xe6\x00\x00\x00\x00\x09\x01\xf3\x01\xe6",
        back: b"\x00\x00\x00\x05\x08\x03\x15\x01v089M\x00\x00\x00\x04\x08\x03\x15\x01v043O",
        sizes: b"\x0d\x0d",
        cells: b"\x00\x00\x00\x04\x08\x03\x15\x01v043O\x00\x00\x00\x05\x08\x03\x15\x01v089M",
        right: 9,
    },
    Sample {
        number: 2,
        usable: 512,
        kind: PageKind::TableInterior,
        front: b"\x05\x00\x00\x00\x02\x01\xf6\x00\x00\x00\x00\x08\x01\xfb\x01\xf6",
        back: b"\x00\x00\x00\x07Z\x00\x00\x00\x06-",
        sizes: b"\x05\x05",
        cells: b"\x00\x00\x00\x06-\x00\x00\x00\x07Z",
        right: 8,
    },
];

// Fails by name where something does not hold.
fn ensure(holds: bool, what: &'static str) -> Result<(), Fail> {
    if holds { Ok(()) } else { Err(Fail::new(what)) }
}

// A change of a page by one cell, or the page written anew.
#[derive(Clone, Copy)]
enum Change {
    Insert(u32, &'static [u8]),
    Remove(u32),
    Anew,
}

// Changes of an empty leaf, one after the other. The cells have from four to eight bytes.
const CHANGES: [Change; 12] = [
    Change::Insert(0, b"\x02\x01aa"),
    Change::Insert(1, b"\x06\x02bbbbbb"),
    Change::Insert(0, b"\x04\x03cccc"),
    Change::Remove(1),
    Change::Insert(2, b"\x03\x04ddd"),
    Change::Insert(1, b"\x05\x05eeeee"),
    Change::Anew,
    Change::Remove(3),
    Change::Remove(0),
    Change::Insert(0, b"\x01\x06f"),
    Change::Remove(2),
    Change::Insert(1, b"\x00\x07"),
];

fn page_of(alloc: Global, sample: &Sample) -> Result<Vec<u8>, AllocError> {
    let mut page = Vec::new(alloc);
    if sample.number == 1 {
        page.resize(100, 0)?;
    }
    page.extend_from_slice(sample.front)?;
    let back = 512usize.saturating_sub(sample.back.len());
    page.resize(back, 0)?;
    page.extend_from_slice(sample.back)?;
    Ok(page)
}

fn cells_of(alloc: Global, sample: &Sample) -> Result<Vec<Bytes>, AllocError> {
    let mut list = Vec::new(alloc);
    let mut rest = sample.cells;
    for size in sample.sizes {
        let (cell, behind) = rest.split_at(rest.len().min(usize::from(*size)));
        list.push(Bytes::of(alloc, cell)?)?;
        rest = behind;
    }
    Ok(list)
}

// Whether a cell of this size stands at an index of the array, one of the first hundred, and is these bytes.
fn stands(page: &[u8], number: u32, kind: PageKind, at: usize, size: usize, cell: &[u8]) -> bool
    requires { 480 ≤ length page.now }
{
    if at >= 100 {
        return false;
    }
    let place = place_of(page, number, kind, at as u32);
    size <= page.len() && place <= page.len() - size && &page[place..place + size] == cell
}

// The cells of a page are these, in order.
fn check_cells(
    alloc: Global,
    page: &[u8],
    number: u32,
    usable: u32,
    list: &[Bytes],
) -> Result<(), Fail>
    requires usable { IsUsable usable }
    requires whole { usable ≤ length page.now }
{
    let views = cells(alloc, page, number, usable)?;
    ensure(views.len() == list.len(), "the number of cells")?;
    let Some(kind) = page_kind(page, number) else {
        return Err(Fail::new("the kind"));
    };
    let mut rest = list;
    for (at, view) in views.as_slice().iter().enumerate() {
        let [cell, behind @ ..] = rest else {
            return Err(Fail::new("a cell too many"));
        };
        ensure(
            stands(page, number, kind, at, view.size as usize, cell.as_slice()),
            "a cell",
        )?;
        rest = behind;
    }
    Ok(())
}

// Puts a cell into a page where `insert_cell` may be called.
fn insert(
    alloc: Global,
    page: &mut [u8],
    number: u32,
    usable: u32,
    at: u32,
    cell: &[u8],
) -> Result<Result<(), NoRoom>, Fail>
    requires usable { IsUsable usable }
    requires whole { usable ≤ length page.old }
    requires long { length page.old ≤ 65536 }
{
    let views = cells(alloc, page, number, usable)?;
    let Some(kind) = page_kind(page, number) else {
        return Err(Fail::new("the kind"));
    };
    let Ok(view) = read_cell(kind, usable, cell) else {
        return Err(Fail::new("no cell"));
    };
    if view.size as usize != cell.len() || at as usize > views.len() {
        return Err(Fail::new("not one cell, or no place for it"));
    }
    Ok(insert_cell(page, number, usable, at, cell))
}

// Takes a cell out of a page where `remove_cell` may be called.
fn remove(alloc: Global, page: &mut [u8], number: u32, usable: u32, at: u32) -> Result<(), Fail>
    requires usable { IsUsable usable }
    requires whole { usable ≤ length page.old }
    requires long { length page.old ≤ 65536 }
{
    let views = cells(alloc, page, number, usable)?;
    if at as usize >= views.len() {
        return Err(Fail::new("no such cell"));
    }
    remove_cell(page, number, usable, at);
    Ok(())
}

// Whether each of these is one cell.
fn are_cells(kind: PageKind, usable: u32, list: &[Bytes]) -> bool
    requires { IsUsable usable }
    ensures { IsTrue result → All (IsOneCell kind usable) list.now }
{
    for cell in list {
        let bytes = cell.as_slice();
        let Ok(view) = read_cell(kind, usable, bytes) else {
            return false;
        };
        if view.size as usize != bytes.len() {
            return false;
        }
    }
    true
}

// Writes a page anew where `rebuild` may be called.
fn write_anew(
    page: &mut [u8],
    number: u32,
    usable: u32,
    kind: PageKind,
    list: &[Bytes],
    right: u32,
) -> Result<(), Fail>
    requires usable { IsUsable usable }
    requires whole { usable ≤ length page.old }
    requires long { length page.old ≤ 65536 }
{
    if !are_cells(kind, usable, list) {
        return Err(Fail::new("not one cell each"));
    }
    rebuild(page, number, usable, kind, list, right)?;
    Ok(())
}

fn put_item(list: &mut Vec<Bytes>, at: usize, cell: Bytes) -> Result<(), Fail> {
    if at > list.len() {
        return Err(Fail::new("no place in the list"));
    }
    list.insert(at, cell)?;
    Ok(())
}

fn drop_item(list: &mut Vec<Bytes>, at: usize) -> Result<(), Fail> {
    if at >= list.len() {
        return Err(Fail::new("no such place in the list"));
    }
    let _ = list.remove(at);
    Ok(())
}

fn write_again(page: &mut [u8], number: u32, usable: u32, list: &[Bytes]) -> Result<(), Fail>
    requires usable { IsUsable usable }
    requires whole { usable ≤ length page.old }
    requires long { length page.old ≤ 65536 }
{
    let Some(kind) = page_kind(page, number) else {
        return Err(Fail::new("the kind"));
    };
    write_anew(page, number, usable, kind, list, 0)
}

// Changes a page and a list of its cells in the same way, and compares them.
fn apply(
    alloc: Global,
    page: &mut [u8],
    number: u32,
    usable: u32,
    list: &mut Vec<Bytes>,
    change: Change,
) -> Result<(), Fail>
    requires usable { IsUsable usable }
    requires whole { usable ≤ length page.old }
    requires long { length page.old ≤ 65536 }
{
    match change {
        Change::Insert(at, cell) => {
            insert(alloc, page, number, usable, at, cell)??;
            put_item(list, at as usize, Bytes::of(alloc, cell)?)?;
        }
        Change::Remove(at) => {
            remove(alloc, page, number, usable, at)?;
            drop_item(list, at as usize)?;
        }
        Change::Anew => write_again(page, number, usable, list.as_slice())?,
    }
    check_cells(alloc, page, number, usable, list.as_slice())
}

// A table leaf's cell whose payload is so many zeros.
fn long_cell(alloc: Global, payload: u32) -> Result<Vec<u8>, AllocError> {
    let mut cell = Vec::new(alloc);
    push_varint(u64::from(payload), &mut cell)?;
    cell.push(1)?;
    let size = cell.len().saturating_add(payload as usize);
    cell.resize(size, 0)?;
    Ok(cell)
}

// A cell that needs one byte more than is free finds no room, and one byte less fits.
fn check_room(
    alloc: Global,
    page: &mut [u8],
    usable: u32,
    payload: u32,
    wanted: NoRoom,
) -> Result<(), Fail>
    requires usable { IsUsable usable }
    requires whole { usable ≤ length page.old }
    requires long { length page.old ≤ 65536 }
{
    let large = long_cell(alloc, payload)?;
    let full = insert(alloc, page, 2, usable, 0, large.as_slice())?;
    ensure(full == Err(wanted), "no room")?;
    let small = long_cell(alloc, payload.saturating_sub(1))?;
    insert(alloc, page, 2, usable, 0, small.as_slice())??;
    Ok(())
}

fn blank(alloc: Global, size: usize) -> Result<Vec<u8>, AllocError>
    ensures { IfOk result (λ page. length page.items ≡ size) }
{
    vec![in alloc; 0; size]
}

// Reads a page that SQLite wrote.
fn check_sample(alloc: Global, page: &[u8], sample: &Sample, list: &[Bytes]) -> Result<(), Fail>
    requires usable { IsUsable sample.now.usable }
    requires whole { sample.now.usable ≤ length page.now }
{
    check_cells(alloc, page, sample.number, sample.usable, list)?;
    ensure(
        page_kind(page, sample.number) == Some(sample.kind),
        "the kind",
    )?;
    ensure(
        right_child(page, sample.number, sample.kind) == sample.right,
        "the right child",
    )
}

// Takes the first cell out and puts it behind the others, then takes the next out.
fn turn(alloc: Global, page: &mut [u8], sample: &Sample, list: &mut Vec<Bytes>) -> Result<(), Fail>
    requires usable { IsUsable sample.now.usable }
    requires whole { sample.now.usable ≤ length page.old }
    requires long { length page.old ≤ 65536 }
{
    let Sample {
        number,
        usable,
        cells,
        sizes,
        ..
    } = *sample;
    let [size, ..] = sizes else {
        return Err(Fail::new("no cell"));
    };
    let (first, _) = cells.split_at(cells.len().min(usize::from(*size)));
    let end = sizes.len().saturating_sub(1).min(100);
    apply(alloc, page, number, usable, list, Change::Remove(0))?;
    let put = Change::Insert(end as u32, first);
    apply(alloc, page, number, usable, list, put)?;
    apply(alloc, page, number, usable, list, Change::Remove(0))
}

// Makes a header deny all holes, and lie about the start of the cells.
fn lie(page: &mut [u8], number: u32)
    requires { 480 ≤ length page.old }
{
    let header = if number == 1 { 100 } else { 0 };
    page[header + 1] = 0;
    page[header + 2] = 0;
    page[header + 6] = 9;
    page[header + 7] = 0;
}

fn read_and_change(alloc: Global, sample: &Sample, lying: bool) -> Result<(), Fail> {
    let mut bytes = page_of(alloc, sample)?;
    let mut list = cells_of(alloc, sample)?;
    let page = bytes.as_mut_slice();
    if page.len() != 512 || sample.usable < 480 || sample.usable > 512 {
        return Err(Fail::new("the size of the sample"));
    }
    check_sample(alloc, page, sample, list.as_slice())?;
    if lying {
        lie(page, sample.number);
    }
    turn(alloc, page, sample, &mut list)
}

#[test]
fn pages_of_sqlite_are_read_and_changed(rt: HostRuntime) -> Result<(), Fail> {
    for sample in SAMPLES {
        read_and_change(rt.alloc(), &sample, false)?;
        read_and_change(rt.alloc(), &sample, true)?;
    }
    Ok(())
}

fn make_changes(alloc: Global) -> Result<(), Fail> {
    let mut bytes = blank(alloc, 512)?;
    let mut list = Vec::new(alloc);
    let page = bytes.as_mut_slice();
    write_anew(page, 2, 512, PageKind::TableLeaf, list.as_slice(), 0)?;
    for step in CHANGES {
        apply(alloc, page, 2, 512, &mut list, step)?;
    }
    Ok(())
}

fn check_rooms(alloc: Global) -> Result<(), Fail> {
    let mut bytes = blank(alloc, 512)?;
    let page = bytes.as_mut_slice();
    write_anew(page, 2, 512, PageKind::TableLeaf, &[], 0)?;
    let first = long_cell(alloc, 477)?;
    insert(alloc, page, 2, 512, 0, first.as_slice())??;
    check_room(
        alloc,
        page,
        512,
        19,
        NoRoom {
            needs: 23,
            free: 22,
        },
    )
}

// The same on a page with holes.
fn check_room_of_holes(alloc: Global) -> Result<(), Fail> {
    let [sample, ..] = SAMPLES;
    let mut bytes = page_of(alloc, &sample)?;
    let page = bytes.as_mut_slice();
    if page.len() != 512 {
        return Err(Fail::new("the size of the sample"));
    }
    let wanted = NoRoom {
        needs: 459,
        free: 458,
    };
    check_room(alloc, page, 512, 454, wanted)
}

const EMPTY: &[u8] = b"\x0d\x00\x00\x00\x00\x00\x00\x00";

// The start of the content is written modulo 65536.
fn check_greatest(alloc: Global) -> Result<(), Fail> {
    let mut bytes = blank(alloc, 65536)?;
    let mut list = Vec::new(alloc);
    let page = bytes.as_mut_slice();
    write_anew(page, 2, 65536, PageKind::TableLeaf, list.as_slice(), 0)?;
    ensure(page.starts_with(EMPTY), "an empty leaf")?;
    apply(
        alloc,
        page,
        2,
        65536,
        &mut list,
        Change::Insert(0, b"\x02\x01aa"),
    )?;
    ensure(
        page.starts_with(b"\x0d\x00\x00\x00\x01\xff\xfc\x00\xff\xfc"),
        "one cell",
    )?;
    apply(alloc, page, 2, 65536, &mut list, Change::Remove(0))?;
    ensure(page.starts_with(EMPTY), "empty again")
}

// A page is refused once one of its bytes is another.
fn check_refusal(
    alloc: Global,
    sample: &Sample,
    at: usize,
    byte: u8,
    wanted: Rule,
) -> Result<(), Fail> {
    let mut bytes = page_of(alloc, sample)?;
    let page = bytes.as_mut_slice();
    if page.len() != 512 || at >= 512 {
        return Err(Fail::new("the size of the sample"));
    }
    page[at] = byte;
    let Err(PageFault::BadPage { rule }) = cells(alloc, page, 2, 512) else {
        return Err(Fail::new("a page that should be refused"));
    };
    ensure(rule == wanted, "the rule")
}

#[test]
fn pages_are_changed_as_lists_of_cells_are(rt: HostRuntime) -> Result<(), Fail> {
    let alloc = rt.alloc();
    make_changes(alloc)?;
    check_rooms(alloc)?;
    check_room_of_holes(alloc)?;
    check_greatest(alloc)?;
    let [.., interior] = SAMPLES;
    check_refusal(alloc, &interior, 0, 7, Rule::Kind)?;
    check_refusal(alloc, &interior, 15, 0xfa, Rule::Cells)
}
