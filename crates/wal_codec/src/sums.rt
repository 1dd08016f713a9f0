// The log's checksum.
ghost use Rattle.std.specs.Prelude.{◌≡◌, ◌%◌, length};
ghost use Rattle.format_spec.specs.Log.{pair_of};
ghost use Rattle.format_spec.specs.Log.{word, checksum};

use byteorder::{BigEndian, ByteOrder, LittleEndian};

/// The checksum of bytes in whole pairs of words (Database File Format, section 4.2).
///
/// The length is a multiple of 8. Words are read with the most significant byte first where `big` is set, else last.
/// `sums` is the checksum of what lies before, and `[0, 0]` where nothing does.
pub fn checksum(bytes: &[u8], big: bool, sums: [u32; 2]) -> [u32; 2]
    requires { length bytes.now % 8 ≡ 0 }
    ensures { pair_of result ≡ checksum big (pair_of sums) bytes.now }
{
    let [mut one, mut two] = sums;
    let mut left = bytes;
    while let [a, b, c, d, e, f, g, h, rest @ ..] = left {
        one = one
            .wrapping_add(number([*a, *b, *c, *d], big))
            .wrapping_add(two);
        two = two
            .wrapping_add(number([*e, *f, *g, *h], big))
            .wrapping_add(one);
        left = rest;
    }
    [one, two]
}

// The number in four bytes, in the byte order that the checksum takes.
fn number(bytes: [u8; 4], big: bool) -> u32
    ensures { result ≡ word big bytes }
{
    if big {
        BigEndian::read_u32(&bytes)
    } else {
        LittleEndian::read_u32(&bytes)
    }
}
