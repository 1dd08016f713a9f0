// Writes overflow chains (Database File Format, section 1.6).
ghost use Rattle.std.specs.Prelude.{◌≡◌, ◌+◌, ◌==◌, ◌≤◌, IfSome, OnOk, length};
ghost use Rattle.std.specs.List.{All, IsDistinct};
ghost use Rattle.page_spec.specs.Chains.{pages_for};
ghost use Rattle.page_spec.specs.WrittenChains.{WritesChain, first_of as first_page, overflow_page};
ghost use Rattle.page_store.specs.Store.{Goes, HasSizes, IsNumber, Owes};
ghost use Rattle.overflow_chain.specs.Chain.{HoldsBytes};

use byte_fields::put_u32;
use page_store::PageWrite;

// The first of these pages, or 0 where there are none.
fn first_of(pages: &[u32]) -> u32
    ensures { result ≡ first_page pages.now }
{
    match pages {
        [] => 0,
        [first, ..] => *first,
    }
}

/// Makes a page an overflow page: the number of the next one, its content, and zeros. Takes no memory.
pub fn fill(page: &mut [u8], next: u32, content: &[u8])
    requires { 4 + length content.now ≤ length page.old }
    ensures { page.new ≡ overflow_page (length page.old) next content.now }
{
    let end = 4 + content.len();
    put_u32(page, 0, next);
    page[4..end].copy_from_slice(content);
    page[end..].fill(0);
}

// Writes the bytes over the pages, through room for a page.
fn write_over<S: PageWrite>(
    store: &mut S,
    pages: &[u32],
    bytes: &[u8],
    room: &mut [u8],
) -> Result<(), S::Fault>
    requires sizes { HasSizes S.PageRead store.old }
    requires many { length pages.now ≡ pages_for (S.usable store.old) (length bytes.now) }
    requires differ { IsDistinct (λ x y. x == y) pages.now }
    requires within { All (λ n. (2 ≤ n) × (n ≤ S.count store.old)) pages.now }
    requires room { S.size store.old ≤ length room.old }
    ensures pages { Goes S.PageRead store.old store.new result (WritesChain (S.size store.old) (S.usable store.old) pages.now bytes.now) }
    ensures owes { Owes S.PageRead store.old store.new result }
{
    let content = store.usable() as usize - 4;
    let page = &mut room[..store.page_size() as usize];
    let mut left = pages;
    let mut rest = bytes;
    while let [number, others @ ..] = left {
        let (here, behind) = rest.split_at(content.min(rest.len()));
        fill(page, first_of(others), here);
        store.set_page(*number, page)?;
        left = others;
        rest = behind;
    }
    Ok(())
}

/// Writes the bytes as an overflow chain over these pages, in order. Each page holds the number of the next, then the bytes; what is left of the last one is zero, as are reserved bytes. Takes no memory.
///
/// The pages are as many as the bytes fill, differ, and are from 2 to the store's count. Where the lock-byte page is not among them, `read_chain` gives the bytes back.
pub fn write_chain<S: PageWrite>(store: &mut S, pages: &[u32], bytes: &[u8]) -> Result<(), S::Fault>
    requires sizes { HasSizes S.PageRead store.old }
    requires many { length pages.now ≡ pages_for (S.usable store.old) (length bytes.now) }
    requires differ { IsDistinct (λ x y. x == y) pages.now }
    requires within { All (λ n. (2 ≤ n) × (n ≤ S.count store.old)) pages.now }
    ensures pages { Goes S.PageRead store.old store.new result (WritesChain (S.size store.old) (S.usable store.old) pages.now bytes.now) }
    ensures chain { All (IsNumber S.PageRead store.old) pages.now → OnOk result (IfSome (S.pages store.new) (λ m.
        HoldsBytes m (S.size store.old) (S.usable store.old) (S.count store.old) (first_page pages.now) (length bytes.now) bytes.now)) }
    ensures owes { Owes S.PageRead store.old store.new result }
{
    let mut room = [0u8; 65536];
    write_over(store, pages, bytes, &mut room)
}
