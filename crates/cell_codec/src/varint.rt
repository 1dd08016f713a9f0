// Variable-length integers.
ghost use Rattle.std.specs.Prelude.{◌≡◌, ℕ, ◌+◌, ◌*◌, ◌^◌, ◌<◌, ◌≤◌, ◌↔◌, ◌++◌, List, IfSome, IsNone, OnOk, OnErr, length, take, drop};
ghost use Rattle.std.specs.List.{AllByRecursion};
ghost use Rattle.common_spec.specs.Reading.{Reads, OrNone};
ghost use Rattle.cell_codec.specs.Varints.{BeginsWithVarint, IsCut};
ghost use Rattle.format_spec.specs.Varint.{HasHighBit, IsVarint, varint, varint_front};

use std::alloc::AllocError;

/// Reads the varint at the front, and how many bytes it takes, 1 to 9 (Database File Format, section 1.6). Longer spellings than the shortest are read too. `None` where the bytes end inside it.
pub fn read_varint(bytes: &[u8]) -> Option<(u64, usize)>
    ensures answer { Reads (OrNone (BeginsWithVarint bytes.now)) result }
    ensures none { IsNone result ↔ IsCut bytes.now }
{
    let mut high = 0;
    for i in 0..8 {
        let byte = *bytes.get(i)?;
        if byte < 128 {
            return Some((high * 128 + u64::from(byte), i + 1));
        }
        high = high * 128 + u64::from(byte - 128);
    }
    let last = *bytes.get(8)?;
    Some((high * 256 + u64::from(last), 9))
}

// How many bytes the shortest spelling has before its last one.
#[tactic(auto, unfolding(format_spec::specs::Varint::varint_front))]
fn front_length(value: u64) -> usize
    ensures value { result ≡ varint_front value }
    ensures most { result ≤ 8 }
{
    match value {
        0..0x80 => 0,
        0x80..0x4000 => 1,
        0x4000..0x20_0000 => 2,
        0x20_0000..0x1000_0000 => 3,
        0x1000_0000..0x8_0000_0000 => 4,
        0x8_0000_0000..0x400_0000_0000 => 5,
        0x400_0000_0000..0x2_0000_0000_0000 => 6,
        0x2_0000_0000_0000..0x100_0000_0000_0000 => 7,
        _ => 8,
    }
}

/// The length of a number's shortest spelling, 1 to 9.
#[tactic(auto, using(crate::specs::VarintLaws::varint_size))]
pub fn varint_length(value: u64) -> usize
    ensures length { result ≡ length (varint value) }
    ensures least { 1 ≤ result }
    ensures most { result ≤ 9 }
{
    front_length(value) + 1
}

/// Writes the shortest spelling at the front of the buffer, and answers its length, 1 to 9.
pub fn write_varint(value: u64, into: &mut [u8; 9]) -> usize
    ensures length { result ≡ length (varint value) }
    ensures written { into.new ≡ varint value ++ drop result into.old }
    ensures least { 1 ≤ result }
    ensures most { result ≤ 9 }
{
    let front = front_length(value);
    let weight = if front == 8 { 256 } else { 128 };
    into[front] = (value % weight) as u8;
    let mut high = value / weight;
    for i in (0..front).rev() {
        into[i] = 128 + (high % 128) as u8;
        high /= 128;
    }
    front + 1
}

/// Appends the shortest spelling. Where memory runs out, the vector stays as it was.
pub fn push_varint(value: u64, into: &mut Vec<u8>) -> Result<(), AllocError>
    ensures written { OnOk result (into.new.items ≡ into.old.items ++ varint value) }
    ensures unchanged { OnErr result (into.new.items ≡ into.old.items) }
{
    let mut spelling = [0; 9];
    let size = write_varint(value, &mut spelling);
    into.extend_from_slice(&spelling[..size])
}

/// No spelling begins another, and so what was written is read again whatever follows it.
pub fn varint_has_one_reading()
    ensures { (a b x y : List ℕ) (m n : ℕ) → IsVarint a m → IsVarint b n → a ++ x ≡ b ++ y → (a ≡ b) × (m ≡ n) }
{}

/// What is written spells the number, and nothing shorter does.
#[tactic(auto, using(crate::specs::VarintLaws::varint_spells, crate::specs::VarintLaws::varint_shortest))]
pub fn varint_is_shortest()
    ensures { (x : ℕ) → x < 2 ^ 64 → IsVarint (varint x) x × ((bytes : List ℕ) → IsVarint bytes x → length (varint x) ≤ length bytes) }
{}
