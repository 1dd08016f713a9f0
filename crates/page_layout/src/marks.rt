// Marks of the bytes of a page, one bit for each.
ghost use Rattle.std.specs.Prelude.{◌≡◌, ◌+◌, ◌*◌, ◌<◌, ◌≤◌, ◌⊎◌, ℕ, false, max, IfOk, IfSome, IfNone, IsTrue, length};
ghost use Rattle.std.specs.Int.{bit_at};
ghost use Rattle.page_layout.specs.Bits.{mark_at};

use std::alloc::{AllocError, Global};

/// Marks of so many bytes, none of which is marked.
pub fn no_marks(alloc: Global, size: usize) -> Result<Vec<u64>, AllocError>
    ensures long { IfOk result (λ marks. size ≤ 64 * length marks.items) }
    ensures unset { IfOk result (λ marks. (b : ℕ) → mark_at marks.items b ≡ 0) }
{
    vec![in alloc; 0; size / 64 + 1]
}

// The bits of a word from one place up to another.
fn bits_between(from: u32, to: u32) -> u64
    requires order { from < to }
    requires most { to ≤ 64 }
    ensures inside { (i : ℕ) → from ≤ i → i < to → bit_at result i ≡ 1 }
    ensures outside { (i : ℕ) → (i < from) ⊎ (to ≤ i) → bit_at result i ≡ 0 }
{
    (u64::MAX >> (64 - to)) & (u64::MAX << from)
}

// A word with more of its bits set, unless one of them is set already.
fn with_bits(word: u64, bits: u64) -> Option<u64>
    ensures free { IfSome result (λ set. (i : ℕ) → bit_at bits i ≡ 1 → bit_at word i ≡ 0) }
    ensures set { IfSome result (λ set. (i : ℕ) → bit_at set i ≡ max (bit_at word i) (bit_at bits i)) }
    ensures taken { IfNone result ((i : ℕ) × (bit_at word i ≡ 1) × (bit_at bits i ≡ 1)) }
{
    if word & bits != 0 {
        return None;
    }
    Some(word | bits)
}

/// Marks so many bytes from a place on, unless one of them is marked already.
pub fn mark(marks: &mut [u64], place: usize, size: usize) -> bool
    requires within { place + size ≤ 64 * length marks.old }
    requires most { place + size ≤ 65536 }
    ensures free { IsTrue result → (b : ℕ) → place ≤ b → b < place + size → mark_at marks.old b ≡ 0 }
    ensures taken { result ≡ false → (b : ℕ) × (place ≤ b) × (b < place + size) × (mark_at marks.old b ≡ 1) }
    ensures set { IsTrue result → (b : ℕ) → place ≤ b → b < place + size → mark_at marks.new b ≡ 1 }
    ensures kept { IsTrue result → (b : ℕ) → (b < place) ⊎ (place + size ≤ b) → mark_at marks.new b ≡ mark_at marks.old b }
{
    let end = place + size;
    let mut from = place;
    while from < end {
        let index = from / 64;
        let first = 64 * index;
        let to = end.min(first + 64);
        let bits = bits_between((from - first) as u32, (to - first) as u32);
        let Some(word) = with_bits(marks[index], bits) else {
            return false;
        };
        marks[index] = word;
        from = to;
    }
    true
}
