// Two small databases: a target with the rows (1, 'one') and (2, 'two'), and one prepared row (3, 'drei').
use disk_memory::MemoryDisk;
use rbu_disk::{Disk, DiskFault, FileName};
use std::alloc::Global;

/// Parts of a file, each with its place.
pub type Parts = &'static [(u64, &'static [u8])];

// The header and the schema of a target, and of an RBU database.
const TARGET: Parts = &[
    (
        0,
        b"SQLite format 3\0\x10\x00\x01\x01\x00\x40\x20\x20\x00\x00\x00\x07\x00\x00\x00\x02",
    ),
    (43, b"\x01\x00\x00\x00\x04"),
    (59, b"\x01"),
    (95, b"\x07\x00\x2d\xe2\x18"),
    (100, b"\x0d\x00\x00\x00\x01\x0f\xc5\x00\x0f\xc5"),
    (
        4037,
        b"\x39\x01\x06\x17\x11\x11\x01\x5ftablet1t1\x02CREATE TABLE t1(a INTEGER PRIMARY KEY, b)",
    ),
];

const RBU: Parts = &[
    (
        0,
        b"SQLite format 3\0\x10\x00\x01\x01\x00\x40\x20\x20\x00\x00\x00\x01\x00\x00\x00\x02",
    ),
    (43, b"\x01\x00\x00\x00\x04"),
    (59, b"\x01"),
    (95, b"\x01\x00\x2d\xe2\x18"),
    (100, b"\x0d\x00\x00\x00\x01\x0f\xbd\x00\x0f\xbd"),
    (
        4029,
        b"\x41\x01\x06\x17\x1b\x1b\x01\x5btabledata_t1data_t1\x02CREATE TABLE data_t1(a, b, rbu_control)",
    ),
];

// The pages of their rows.
const TARGET_ROWS: Parts = &[
    (4096, b"\x0d\x00\x00\x00\x02\x0f\xf0\x00\x0f\xf8\x0f\xf0"),
    (8176, b"\x06\x02\x03\x00\x13two\x06\x01\x03\x00\x13one"),
];

const RBU_ROWS: Parts = &[
    (4096, b"\x0d\x00\x00\x00\x01\x0f\xf5\x00\x0f\xf5"),
    (8181, b"\x09\x01\x04\x01\x15\x08\x03drei"),
];

/// Writes each part at its place.
pub fn write_parts(disk: &mut MemoryDisk, name: FileName, parts: Parts) -> Result<(), DiskFault> {
    for (at, part) in parts {
        disk.write_at(name, *at, part)?;
    }
    Ok(())
}

fn write_empty(disk: &mut MemoryDisk) -> Result<(), DiskFault> {
    disk.set_len(FileName::Target, 8192)?;
    disk.set_len(FileName::Rbu, 8192)?;
    write_parts(disk, FileName::Target, TARGET)?;
    write_parts(disk, FileName::Rbu, RBU)
}

/// A disk in memory with both databases, whose pages of rows are zeros.
pub fn empty_disk(alloc: Global) -> Result<MemoryDisk, DiskFault> {
    let mut disk = MemoryDisk::new(alloc, Vec::new(alloc), Vec::new(alloc));
    write_empty(&mut disk)?;
    Ok(disk)
}

fn write_rows(disk: &mut MemoryDisk) -> Result<(), DiskFault> {
    write_parts(disk, FileName::Target, TARGET_ROWS)?;
    write_parts(disk, FileName::Rbu, RBU_ROWS)
}

/// The disk in memory with the two small databases.
pub fn example_disk(alloc: Global) -> Result<MemoryDisk, DiskFault> {
    let mut disk = empty_disk(alloc)?;
    write_rows(&mut disk)?;
    Ok(disk)
}

// A part of the example's target in which its rows lie the other way round, with a freeblock between them and bytes that are
// not zero where nothing is kept.
const GAPS: Parts = &[
    (
        4096,
        b"\x0d\x0f\xe8\x00\x02\x0f\xe0\x07\x0f\xe0\x0f\xf8\xff\xff",
    ),
    (
        8160,
        b"\x06\x01\x03\x00\x13one\x00\x00\x00\x10\xff\xff\xff\xff\xff\xff\xff\xff\xff\xff\xff\xff\x06\x02\x03\x00\x13two",
    ),
];

/// The disk in memory with the two small databases, whose target has gaps.
pub fn disk_with_gaps(alloc: Global) -> Result<MemoryDisk, DiskFault> {
    let mut disk = example_disk(alloc)?;
    write_parts(&mut disk, FileName::Target, GAPS)?;
    Ok(disk)
}

// Cells of the target: (1, 'one') and (2, 'two').
const ONE: &[u8] = b"\x06\x01\x03\x00\x13one";

const TWO: &[u8] = b"\x06\x02\x03\x00\x13two";

// The two bytes of a place in a page.
fn place_bytes(place: usize) -> [u8; 2] {
    let [.., high, low] = place.to_be_bytes();
    [high, low]
}

// Writes a table leaf into the second page of a file, whose cells lie from its end downwards in order.
fn write_leaf(disk: &mut MemoryDisk, name: FileName, cells: &[&[u8]]) -> Result<(), DiskFault> {
    let mut place: usize = 4096;
    let mut entry: u64 = 4104;
    for cell in cells {
        place = place.saturating_sub(cell.len());
        disk.write_at(name, (place as u64).saturating_add(4096), cell)?;
        disk.write_at(name, entry, &place_bytes(place))?;
        entry = entry.saturating_add(2);
    }
    disk.write_at(name, 4096, b"\x0d")?;
    disk.write_at(name, 4099, &place_bytes(cells.len()))?;
    disk.write_at(name, 4101, &place_bytes(place))
}

fn write_leaves(disk: &mut MemoryDisk, prepared: &[&[u8]]) -> Result<(), DiskFault> {
    write_leaf(disk, FileName::Target, &[ONE, TWO])?;
    write_leaf(disk, FileName::Rbu, prepared)
}

/// A disk whose target has the rows (1, 'one') and (2, 'two'), and whose RBU database has these cells.
pub fn disk_with(alloc: Global, prepared: &[&[u8]]) -> Result<MemoryDisk, DiskFault> {
    let mut disk = empty_disk(alloc)?;
    write_leaves(&mut disk, prepared)?;
    Ok(disk)
}
