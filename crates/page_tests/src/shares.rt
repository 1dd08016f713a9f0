// Which cells of a list go to which page.
ghost use Rattle.std.specs.Prelude.{◌+◌, ◌≤◌, IsTrue};
ghost use Rattle.std.specs.List.{All};
ghost use Rattle.format_spec.specs.Page.{cell_room};

use crate::stores::ensure;
use cell_codec::PageKind;
use rbu_value::Bytes;
use std::alloc::{AllocError, Global};
use std::test::Fail;
use tree_balance::{Share, layout};

// Pages of 512 bytes: a leaf has 504 of them for cells and places, an interior page 500, and page 1 has 100 less.
#[derive(Clone, Copy)]
struct Row {
    leaf: bool,
    first_usable: u32,
    // How many cells, and how many pairs of bytes each has: twice in turn.
    cells: &'static [u8],
    // The shares, by their first cell and the one behind their last.
    shares: &'static [u8],
}

const ROWS: [Row; 11] = [
    Row {
        leaf: true,
        first_usable: 512,
        cells: b"\x00\x00",
        shares: b"",
    },
    Row {
        leaf: true,
        first_usable: 512,
        cells: b"\x03\x32",
        shares: b"\x00\x03",
    },
    // Four and two need 408 and 204 bytes; three each 306.
    Row {
        leaf: true,
        first_usable: 512,
        cells: b"\x06\x32",
        shares: b"\x00\x03\x03\x06",
    },
    Row {
        leaf: true,
        first_usable: 512,
        cells: b"\x0b\x32",
        shares: b"\x00\x04\x04\x08\x08\x0b",
    },
    // A cell has room of four bytes at least: 84 of them fill the page.
    Row {
        leaf: true,
        first_usable: 512,
        cells: b"\x54\x01",
        shares: b"\x00\x54",
    },
    Row {
        leaf: true,
        first_usable: 512,
        cells: b"\x55\x01",
        shares: b"\x00\x2b\x2b\x55",
    },
    // The first page is page 1, which has no room for four cells, nor for the cell of 450 bytes.
    Row {
        leaf: true,
        first_usable: 412,
        cells: b"\x04\x32",
        shares: b"\x00\x02\x02\x04",
    },
    Row {
        leaf: true,
        first_usable: 412,
        cells: b"\x01\xe1",
        shares: b"\x00\x00\x00\x01",
    },
    // A leaf's share may have one cell, an interior page's has one beside that which goes up.
    Row {
        leaf: true,
        first_usable: 512,
        cells: b"\x01\x96\x02\x32",
        shares: b"\x00\x01\x01\x03",
    },
    Row {
        leaf: false,
        first_usable: 512,
        cells: b"\x01\x96\x02\x32",
        shares: b"\x00\x02\x02\x03",
    },
    Row {
        leaf: false,
        first_usable: 512,
        cells: b"\x04\x50",
        shares: b"\x00\x02\x02\x04",
    },
];

// So many cells, each of so many pairs of bytes.
fn cells_of(alloc: Global, runs: &[u8]) -> Result<Vec<Bytes>, AllocError> {
    let zeros = [0u8; 512];
    let mut cells = Vec::new(alloc);
    let mut left = runs;
    while let [count, pairs, rest @ ..] = left {
        for _ in 0..*count {
            cells.push(Bytes::of(alloc, &zeros[..2 * usize::from(*pairs)])?)?;
        }
        left = rest;
    }
    Ok(cells)
}

// Whether a page with so much room has room for each cell.
fn fit(cells: &[Bytes], room: usize) -> bool
    ensures { IsTrue result → All (λ cell. cell_room cell + 2 ≤ room) cells.now }
{
    for cell in cells {
        let size = cell.as_slice().len().max(4);
        if room < 2 || size > room - 2 {
            return false;
        }
    }
    true
}

fn shares_of(alloc: Global, row: &Row) -> Result<Vec<Share>, Fail> {
    let cells = cells_of(alloc, row.cells)?;
    if row.first_usable != 512 && row.first_usable != 412 || !fit(cells.as_slice(), 500) {
        return Err(Fail::new("no row"));
    }
    if row.leaf {
        return Ok(layout(
            alloc,
            cells.as_slice(),
            PageKind::TableLeaf,
            512,
            row.first_usable,
        )?);
    }
    Ok(layout(
        alloc,
        cells.as_slice(),
        PageKind::IndexInterior,
        512,
        row.first_usable,
    )?)
}

// Whether the shares are these.
fn are(shares: &[Share], ends: &[u8]) -> bool {
    let mut left = ends;
    for share in shares {
        let [from, to, rest @ ..] = left else {
            return false;
        };
        if share.from != u32::from(*from) || share.to != u32::from(*to) {
            return false;
        }
        left = rest;
    }
    left.is_empty()
}

#[test]
fn cells_are_cut_into_pages(rt: HostRuntime) -> Result<(), Fail> {
    for row in &ROWS {
        let shares = shares_of(rt.alloc(), row)?;
        ensure(are(shares.as_slice(), row.shares), "the shares")?;
    }
    Ok(())
}
