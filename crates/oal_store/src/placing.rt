// Where the pages of frames stand.
ghost use Rattle.std.specs.Prelude.{◌≡◌, ◌+◌, ◌*◌, ◌^◌, ◌<◌, ℕ, IfOk, OnOk, length};
ghost use Rattle.std.specs.Option.{option_or};
ghost use Rattle.std.specs.BTreeMap.{get, keys, btree_map_len};
ghost use Rattle.std.specs.Ordering.{nat_cmp};
ghost use Rattle.oal_store.specs.OalLog.{last_place};

use crate::appending::End;
use crate::log::OalLog;
use std::alloc::{AllocError, Global};
use std::collections::BTreeMap;

// Where the pages of a whole log's frames stand, by their numbers.
pub(crate) fn frame_places(
    alloc: Global,
    numbers: &[u32],
    page_size: u32,
) -> Result<BTreeMap<u32, u64>, AllocError>
    requires { 32 + length numbers.now * (24 + page_size) < 2 ^ 64 }
    ensures { IfOk result (λ places. (n : ℕ) → get nat_cmp places n ≡ last_place page_size 32 n numbers.now) }
{
    let mut places = BTreeMap::new(alloc);
    let mut at = 32;
    let mut left = numbers;
    while let [number, rest @ ..] = left {
        places.insert(*number, at + 24)?;
        at += 24 + u64::from(page_size);
        left = rest;
    }
    Ok(places)
}

// Notes where the pages stand whose frames were appended to a log of so many bytes.
pub(crate) fn place_pages(
    places: &mut BTreeMap<u32, u64>,
    pages: &BTreeMap<u32, Vec<u8>>,
    page_size: u32,
    size: u64,
) -> Result<(), AllocError>
    requires { size + btree_map_len pages.now * (24 + page_size) < 2 ^ 64 }
    ensures { OnOk result ((n : ℕ) → get nat_cmp places.new n ≡ option_or (last_place page_size size n (keys pages.now)) (get nat_cmp places.old n)) }
{
    let mut at = size;
    for number in pages.keys() {
        places.insert(*number, at + 24)?;
        at += 24 + u64::from(page_size);
    }
    Ok(())
}

impl OalLog {
    ghost use Rattle.format_spec.specs.Log.{pair_of, frames_bytes, sums_behind};
    ghost use Rattle.oal_store.specs.Appending.{frames_of};
    ghost use Rattle.oal_store.specs.Committing.{Grows};

    // Notes that frames of these pages were appended, the last of them a commit of so many pages, and that the log ends behind them.
    pub(crate) fn grow(
        &mut self,
        end: End,
        count: u32,
        pages: &BTreeMap<u32, Vec<u8>>,
    ) -> Result<(), AllocError>
        requires sums { pair_of end.sums ≡ sums_behind self.old.big (pair_of self.old.sums) (frames_of count pages.now.entries) }
        requires size { end.size ≡ self.old.size + length (frames_bytes self.old.big (pair_of self.old.salt) (pair_of self.old.sums) (frames_of count pages.now.entries)) }
        requires long { length (frames_bytes self.old.big (pair_of self.old.salt) (pair_of self.old.sums) (frames_of count pages.now.entries))
            ≡ btree_map_len pages.now * (24 + self.old.page_size) }
        ensures grows { OnOk result (Grows self.old self.new count pages.now.entries) }
        ensures sized { self.new.page_size ≡ self.old.page_size }
    {
        place_pages(&mut self.places, pages, self.page_size, self.size)?;
        let End { size, sums } = end;
        self.size = size;
        self.sums = sums;
        self.pages = count;
        Ok(())
    }
}
