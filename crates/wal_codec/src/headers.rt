// The headers of a log and of its frames.
ghost use Rattle.std.specs.Prelude.{◌≡◌, ◌%◌, true, length};
ghost use Rattle.format_spec.specs.Log.{AreWords, magic, pair_of};
ghost use Rattle.format_spec.specs.Log.{log_header, log_sums, frame_header, frame_sums};

use crate::sums::checksum;
use byteorder::{BigEndian, ByteOrder};

// The magic number of a log whose checksums take their words with the most significant byte first.
pub(crate) const MAGIC: u32 = 0x377f0683;

// The magic number of one whose checksums take them with the least significant byte first.
const LITTLE_MAGIC: u32 = 0x377f0682;

// The version of the log's format.
const FILE_FORMAT: u32 = 3007000;

// The magic number of a byte order.
fn magic(big: bool) -> u32
    ensures { result ≡ magic big }
{
    if big { MAGIC } else { LITTLE_MAGIC }
}

// Writes a log's header, and returns its checksum.
pub(crate) fn write_log_header(
    big: bool,
    page_size: u32,
    sequence: u32,
    salt: [u32; 2],
    into: &mut [u8; 32],
) -> [u32; 2]
    ensures header { into.new ≡ log_header big page_size sequence (pair_of salt) }
    ensures sums { pair_of result ≡ log_sums big page_size sequence (pair_of salt) }
    ensures words { AreWords (pair_of salt) }
{
    let front = [
        magic(big),
        FILE_FORMAT,
        page_size,
        sequence,
        salt[0],
        salt[1],
    ];
    BigEndian::write_u32_into(&front, &mut into[..24]);
    let sums = checksum(&into[..24], big, [0, 0]);
    BigEndian::write_u32_into(&sums, &mut into[24..]);
    sums
}

/// Writes the 24 bytes of a frame's header (Database File Format, section 4.1) into a log whose checksums take their words with the most
/// significant byte first where `big` is true, and last where it is not, and returns the checksum at the frame. Else as `frame_bytes`.
pub fn write_frame_header(
    big: bool,
    number: u32,
    commit: u32,
    salt: [u32; 2],
    sums: [u32; 2],
    page: &[u8],
    into: &mut [u8; 24],
) -> [u32; 2]
    requires { length page.now % 8 ≡ 0 }
    ensures header { into.new ≡ frame_header big (pair_of salt) (pair_of sums) number commit page.now }
    ensures sums { pair_of result ≡ frame_sums big (pair_of sums) number commit page.now }
{
    BigEndian::write_u32_into(&[number, commit], &mut into[..8]);
    let sums = checksum(&into[..8], big, sums);
    let sums = checksum(page, big, sums);
    BigEndian::write_u32_into(&[salt[0], salt[1], sums[0], sums[1]], &mut into[8..]);
    sums
}

/// Writes the 32 bytes of a log's header with magic 0x377f0683 and checkpoint sequence 0
/// (Database File Format, section 4.1), and returns its checksum.
///
/// `page_size` is in bytes.
pub fn header_bytes(page_size: u32, salt: [u32; 2], into: &mut [u8; 32]) -> [u32; 2]
    ensures header { into.new ≡ log_header true page_size 0 (pair_of salt) }
    ensures sums { pair_of result ≡ log_sums true page_size 0 (pair_of salt) }
    ensures words { AreWords (pair_of salt) }
{
    write_log_header(true, page_size, 0, salt, into)
}

/// Writes the 24 bytes of a frame's header (Database File Format, section 4.1), and returns the checksum at the frame.
///
/// `number` counts pages from 1. `commit` is the size in pages after a commit, or 0. `sums` is the checksum before the frame:
/// the header's, or that of the frame before. The page's length is a multiple of 8.
pub fn frame_bytes(
    number: u32,
    commit: u32,
    salt: [u32; 2],
    sums: [u32; 2],
    page: &[u8],
    into: &mut [u8; 24],
) -> [u32; 2]
    requires { length page.now % 8 ≡ 0 }
    ensures header { into.new ≡ frame_header true (pair_of salt) (pair_of sums) number commit page.now }
    ensures sums { pair_of result ≡ frame_sums true (pair_of sums) number commit page.now }
{
    write_frame_header(true, number, commit, salt, sums, page, into)
}
