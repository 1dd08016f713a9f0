// Varints, and cells of each kind.
use crate::ensure::ensure;
use cell_codec::{
    CellFault, CellView, PageKind, cell_length, local_size, push_varint, read_cell, read_varint,
    varint_length, write_cell, write_varint,
};
use std::alloc::Global;
use std::test::Fail;

// Numbers and their shortest spellings.
const VARINTS: &[(u64, &[u8])] = &[
    (7, b"\x07"),
    (300, b"\x82\x2c"),
    (u64::MAX, b"\xff\xff\xff\xff\xff\xff\xff\xff\xff"),
];

// A view whose fields are those of a table leaf's cell with its payload at the end.
const LEAF: CellView = CellView {
    size: 8,
    rowid: 1,
    child: 0,
    payload: 6,
    local_at: 2,
    local: 6,
    overflow: 0,
};

// The record of (NULL, 'one'), as SQLite wrote it.
const RECORD: &[u8] = b"\x03\x00\x13one";

// The cells of that record as SQLite wrote them, at edges of the rowid's varint, with the place of the record.
const CELLS: &[(i64, u32, &[u8])] = &[
    (1, 2, b"\x06\x01\x03\x00\x13one"),
    (128, 3, b"\x06\x81\x00\x03\x00\x13one"),
    (
        72057594037927936,
        10,
        b"\x06\x80\xc0\x80\x80\x80\x80\x80\x80\x00\x03\x00\x13one",
    ),
    (
        i64::MAX,
        10,
        b"\x06\xbf\xff\xff\xff\xff\xff\xff\xff\xff\x03\x00\x13one",
    ),
    (
        -1,
        10,
        b"\x06\xff\xff\xff\xff\xff\xff\xff\xff\xff\x03\x00\x13one",
    ),
    (
        i64::MIN,
        10,
        b"\x06\xc0\x80\x80\x80\x80\x80\x80\x80\x00\x03\x00\x13one",
    ),
];

// Cells of each kind: the view, the payload, and the bytes.
const KINDS: &[(PageKind, CellView, &[u8], &[u8])] = &[
    (
        PageKind::TableLeaf,
        CellView {
            size: 10,
            payload: 8,
            local: 8,
            ..LEAF
        },
        b"\x04\x00\x13\x01one\x0a",
        b"\x08\x01\x04\x00\x13\x01one\x0a",
    ),
    (
        PageKind::TableInterior,
        CellView {
            size: 6,
            rowid: 300,
            child: 5,
            payload: 0,
            local_at: 0,
            local: 0,
            overflow: 0,
        },
        b"",
        b"\x00\x00\x00\x05\x82\x2c",
    ),
    (
        PageKind::IndexLeaf,
        CellView {
            size: 6,
            rowid: 0,
            payload: 5,
            local_at: 1,
            local: 5,
            ..LEAF
        },
        b"\x01\x02\x03\x04\x05",
        b"\x05\x01\x02\x03\x04\x05",
    ),
    (
        PageKind::IndexInterior,
        CellView {
            size: 10,
            rowid: 0,
            child: 7,
            payload: 5,
            local_at: 5,
            local: 5,
            overflow: 0,
        },
        b"\x01\x02\x03\x04\x05",
        b"\x00\x00\x00\x07\x05\x01\x02\x03\x04\x05",
    ),
];

// Bytes that begin with no cell.
const SHORT_CELLS: &[(PageKind, &[u8])] = &[
    (PageKind::TableLeaf, b"\x06\x01\x03\x00\x13on"),
    (PageKind::TableLeaf, b"\x06\x81"),
    (PageKind::TableLeaf, b"\x87\xff\xff\xff\x7f"),
    (PageKind::TableInterior, b"\x00\x00\x00\x05\x82"),
    (PageKind::IndexLeaf, b"\x05\x01\x02\x03\x04"),
    (PageKind::IndexInterior, b"\x00\x00\x00"),
];

const OVER_LIMIT: &[(PageKind, &[u8])] = &[
    (PageKind::TableLeaf, b"\x88\x80\x80\x80\x00"),
    (PageKind::IndexLeaf, b"\x88\x80\x80\x80\x00"),
    (
        PageKind::IndexInterior,
        b"\x00\x00\x00\x07\x88\x80\x80\x80\x00",
    ),
];

// How much of a payload cells keep: the kind, the payload, and the local part.
const SIZES_OF_512: &[(PageKind, u64, u32)] = &[
    (PageKind::TableLeaf, 477, 477),
    (PageKind::TableLeaf, 478, 39),
    (PageKind::TableLeaf, 1048576, 64),
    (PageKind::IndexLeaf, 102, 102),
    (PageKind::IndexLeaf, 103, 39),
    (PageKind::IndexInterior, 610, 102),
];

fn is_varint(value: u64, bytes: &[u8]) -> Result<(), Fail> {
    let mut spelling = [0; 9];
    ensure(varint_length(value) == bytes.len(), "a varint's length")?;
    ensure(
        write_varint(value, &mut spelling) == bytes.len(),
        "the length written",
    )?;
    ensure(spelling.starts_with(bytes), "a varint")?;
    ensure(
        read_varint(bytes) == Some((value, bytes.len())),
        "a varint's value",
    )
}

fn is_pushed(alloc: Global, value: u64, bytes: &[u8]) -> Result<(), Fail> {
    let mut pushed = Vec::new(alloc);
    push_varint(value, &mut pushed)?;
    ensure(pushed.as_slice() == bytes, "a varint pushed")
}

#[test]
fn varints_are_written_and_read(rt: HostRuntime) -> Result<(), Fail> {
    for (value, bytes) in VARINTS {
        is_varint(*value, bytes)?;
        is_pushed(rt.alloc(), *value, bytes)?;
    }
    ensure(read_varint(b"\x80\x01\x07") == Some((1, 2)), "a long 1")?;
    let longest = b"\x80\x80\x80\x80\x80\x80\x80\x80\x01";
    ensure(read_varint(longest) == Some((1, 9)), "the longest 1")?;
    ensure(read_varint(b"").is_none(), "no bytes")?;
    let cut = b"\xff\xff\xff\xff\xff\xff\xff\xff";
    ensure(read_varint(cut).is_none(), "eight bytes of nine")
}

// The bytes are the cell's, read and written; they are sixteen at most.
fn is_cell(kind: PageKind, cell: &CellView, local: &[u8], bytes: &[u8]) -> Result<(), Fail> {
    ensure(read_cell(kind, 4096, bytes) == Ok(*cell), "a cell")?;
    let length = cell_length(kind, cell);
    if local.len() != cell.local as usize || length > 16 {
        return Err(Fail::new("a row of the table"));
    }
    let mut written = [0; 16];
    let end = write_cell(kind, cell, local, &mut written);
    ensure(length == bytes.len() && end == length, "a cell's length")?;
    ensure(written.starts_with(bytes), "a cell written")
}

fn are_leaf_cells() -> Result<(), Fail> {
    for (rowid, local_at, bytes) in CELLS {
        let cell = CellView {
            size: bytes.len() as u32,
            rowid: *rowid,
            local_at: *local_at,
            ..LEAF
        };
        is_cell(PageKind::TableLeaf, &cell, RECORD, bytes)?;
    }
    Ok(())
}

fn have_fault(table: &[(PageKind, &[u8])], fault: CellFault) -> Result<(), Fail> {
    for (kind, bytes) in table {
        ensure(read_cell(*kind, 4096, bytes) == Err(fault), "a fault")?;
    }
    Ok(())
}

// A cell of a page of 512 bytes whose payload goes on in page 0x01010101.
fn has_overflow_page() -> Result<(), Fail> {
    let mut bytes = [1; 48];
    bytes[0] = 0x83;
    bytes[1] = 0x5e;
    let cell = CellView {
        size: 46,
        payload: 478,
        local_at: 3,
        local: 39,
        overflow: 0x0101_0101,
        ..LEAF
    };
    let read = read_cell(PageKind::TableLeaf, 512, &bytes);
    ensure(read == Ok(cell), "a cell with an overflow page")
}

#[test]
fn cells_are_written_and_read(_rt: HostRuntime) -> Result<(), Fail> {
    are_leaf_cells()?;
    for (kind, cell, local, bytes) in KINDS {
        is_cell(*kind, cell, local, bytes)?;
    }
    has_overflow_page()?;
    have_fault(SHORT_CELLS, CellFault::ShortCell)?;
    have_fault(OVER_LIMIT, CellFault::SizeOverLimit)
}

#[test]
fn cells_keep_their_local_part(_rt: HostRuntime) -> Result<(), Fail> {
    for (kind, payload, local) in SIZES_OF_512 {
        ensure(local_size(*kind, 512, *payload) == *local, "512 bytes")?;
    }
    let greatest = PageKind::TableLeaf;
    ensure(local_size(greatest, 65536, 65501) == 65501, "all local")?;
    ensure(local_size(greatest, 65536, 65502) == 8199, "one page more")
}
