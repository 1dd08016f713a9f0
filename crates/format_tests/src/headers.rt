// The database header.
use crate::ensure::ensure;
use db_header::{Header, HeaderFault, read_header, write_header};
use std::test::Fail;

// The header that SQLite wrote for a small database: pages of 4096 bytes, of which there are two, change counter 7.
const VECTOR: &[u8; 100] =
    b"SQLite format 3\0\x10\0\x01\x01\0\x40\x20\x20\0\0\0\x07\0\0\0\x02\0\0\0\0\0\0\0\0\0\0\0\x01\0\0\0\x04\0\0\0\0\0\0\0\0\0\0\0\x01\0\0\0\0\0\0\0\0\0\0\0\0\0\0\0\0\0\0\0\0\0\0\0\0\0\0\0\0\0\0\0\0\0\0\0\x07\0\x2d\xe2\x18";

// What that header says.
const SMALL: Header = Header {
    page_size: 4096,
    reserved: 0,
    change_counter: 7,
    pages: 2,
    freelist_trunk: 0,
    freelist_pages: 0,
    schema_cookie: 1,
    format: 4,
};

// The vector's header with other bytes at some places.
fn changed(changes: &[(usize, u8)]) -> [u8; 100] {
    let mut bytes = *VECTOR;
    for (place, byte) in changes {
        if let Some(old) = bytes.get_mut(*place) {
            *old = *byte;
        }
    }
    bytes
}

// Headers that are read in a file of so many bytes: the changes to the vector, the length, and what is read.
const READ: &[(&[(usize, u8)], u64, Header)] = &[
    (&[], 8192, SMALL),
    (&[(47, 0), (59, 0)], 8192, Header { format: 1, ..SMALL }),
    (&[(95, 6)], 12388, Header { pages: 3, ..SMALL }),
    (&[(31, 0)], 12388, Header { pages: 3, ..SMALL }),
    (
        &[(16, 0), (17, 1)],
        131072,
        Header {
            page_size: 65536,
            ..SMALL
        },
    ),
];

// Headers that are refused, with their first fault.
const REFUSED: &[(&[(usize, u8)], u64, HeaderFault)] = &[
    (&[(15, 1)], 8192, HeaderFault::NotADatabase),
    (&[(22, 33)], 8192, HeaderFault::NotADatabase),
    (&[(16, 1)], 8192, HeaderFault::PageSize { value: 256 }),
    (
        &[(16, 0), (17, 2)],
        8192,
        HeaderFault::PageSize { value: 2 },
    ),
    (&[(19, 2)], 8192, HeaderFault::WalMode),
    (&[(16, 2), (20, 33), (18, 2)], 8192, HeaderFault::WalMode),
    (
        &[(16, 2), (20, 33)],
        8192,
        HeaderFault::ReservedSpace { value: 33 },
    ),
    (
        &[(47, 5), (59, 2)],
        8192,
        HeaderFault::SchemaFormat { value: 5 },
    ),
    (
        &[(59, 2), (55, 3)],
        8192,
        HeaderFault::Encoding { value: 2 },
    ),
    (&[(55, 3)], 8192, HeaderFault::AutoVacuum { value: 3 }),
    (
        &[],
        8191,
        HeaderFault::SizeMismatch {
            pages: 2,
            length: 8191,
        },
    ),
    (
        &[(95, 6)],
        4095,
        HeaderFault::SizeMismatch {
            pages: 0,
            length: 4095,
        },
    ),
    (
        &[(28, 1), (31, 1)],
        68719480832,
        HeaderFault::SizeMismatch {
            pages: 16777217,
            length: 68719480832,
        },
    ),
    (
        &[(16, 0), (17, 1)],
        131071,
        HeaderFault::SizeMismatch {
            pages: 2,
            length: 131071,
        },
    ),
];

#[test]
fn headers_are_read_or_refused(_rt: HostRuntime) -> Result<(), Fail> {
    for (changes, file_len, header) in READ {
        let read = read_header(&changed(changes), *file_len);
        ensure(read == Ok(*header), "a header")?;
    }
    for (changes, file_len, fault) in REFUSED {
        let read = read_header(&changed(changes), *file_len);
        ensure(read == Err(*fault), "a fault")?;
    }
    let cut = read_header(&VECTOR[..50], 50);
    ensure(cut == Err(HeaderFault::NotADatabase), "50 bytes")
}

// Bytes 0xa5 with the header's fields in them.
const WRITTEN: &[u8] =
    b"\xa5\xa5\xa5\xa5\xa5\xa5\xa5\xa5\xa5\xa5\xa5\xa5\xa5\xa5\xa5\xa5\x02\0\xa5\xa5\x0c\xa5\xa5\xa5\x01\x02\x03\x04\0\0\0\x05\0\0\0\x06\0\0\0\x07\x08\x09\x0a\x0b\0\0\0\x04\xa5\xa5\xa5\xa5\xa5\xa5\xa5\xa5\xa5\xa5\xa5\xa5\xa5\xa5\xa5\xa5\xa5\xa5\xa5\xa5\xa5\xa5\xa5\xa5\xa5\xa5\xa5\xa5\xa5\xa5\xa5\xa5\xa5\xa5\xa5\xa5\xa5\xa5\xa5\xa5\xa5\xa5\xa5\xa5\x01\x02\x03\x04\xa5\xa5\xa5\xa5\xa5\xa5\xa5\xa5";

#[test]
fn header_is_written_at_its_places_alone(_rt: HostRuntime) -> Result<(), Fail> {
    let header = Header {
        page_size: 512,
        reserved: 12,
        change_counter: 0x01020304,
        pages: 5,
        freelist_trunk: 6,
        freelist_pages: 7,
        schema_cookie: 0x08090a0b,
        format: 4,
    };
    let mut page1 = [0xa5; 104];
    write_header(&header, &mut page1);
    ensure(page1.as_slice() == WRITTEN, "the page written")?;
    let greatest = Header {
        page_size: 65536,
        ..header
    };
    write_header(&greatest, &mut page1);
    ensure([page1[16], page1[17]] == [0, 1], "a page size of 65536")
}
