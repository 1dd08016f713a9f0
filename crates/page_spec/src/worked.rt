// The definitions, computed on rows that were worked out by hand.
ghost use Rattle.std.specs.Prelude.{◌≡◌, ◌-◌, [], ◌∷◌, ◌++◌, replicate};
ghost use Rattle.format_spec.specs.declared.PageKind.TheVariants.{TableInterior, TableLeaf};
ghost use Rattle.page_spec.specs.Pages.{Pages, lock_byte_page, with_page};
ghost use Rattle.page_spec.specs.Chains.{IsChain, chain_bytes, pages_for};
ghost use Rattle.page_spec.specs.Freelists.{IsFreelist, Trunk, trunk_limit};
ghost use Rattle.page_spec.specs.Counts.{times};
ghost use Rattle.page_spec.specs.FreePages.{due, page_past, slack};
ghost use Rattle.page_spec.specs.WrittenChains.{HoldChain};
ghost use Rattle.page_spec.specs.Rooms.{HasNoHole, IsWritten, free_bytes};

/// The lock-byte page of the greatest and the least page size, and the page behind which it stands.
pub fn worked_lock_byte_pages()
    ensures greatest { lock_byte_page 65536 ≡ 16385 }
    ensures least { lock_byte_page 512 ≡ 2097153 }
{}

/// Nine bytes over pages of 10 bytes with 8 usable ones: 5, 2 and 7, of which the last holds one byte; the same where page 2 names a page past the end; and how many pages long payloads fill.
pub fn worked_chain()
    ensures chain { let pages : Pages = with_page (with_page (with_page (λ _. []) 5 (0 ∷ 0 ∷ 0 ∷ 2 ∷ 1 ∷ 2 ∷ 3 ∷ 4 ∷ 9 ∷ 9 ∷ []))
        2 (0 ∷ 0 ∷ 0 ∷ 7 ∷ 5 ∷ 6 ∷ 7 ∷ 8 ∷ 9 ∷ 9 ∷ [])) 7 (0 ∷ 0 ∷ 0 ∷ 0 ∷ 9 ∷ 0 ∷ 0 ∷ 0 ∷ 0 ∷ 0 ∷ []) in
        IsChain pages 10 8 7 5 9 (5 ∷ 2 ∷ 7 ∷ []) × (chain_bytes pages 8 (5 ∷ 2 ∷ 7 ∷ []) 9 ≡ 1 ∷ 2 ∷ 3 ∷ 4 ∷ 5 ∷ 6 ∷ 7 ∷ 8 ∷ 9 ∷ []) }
    ensures whole_pages { pages_for 512 1016 ≡ 2 }
    ensures one_more { pages_for 512 1017 ≡ 3 }
    ensures long { pages_for 512 (1048576 - 64) ≡ 2064 }
    ensures none { pages_for 480 0 ≡ 0 }
{}

/// The same nine bytes as they are written: reserved bytes and what is left of the last page are zero.
pub fn worked_written_chain()
    ensures { let pages : Pages = with_page (with_page (with_page (λ _. []) 5 (0 ∷ 0 ∷ 0 ∷ 2 ∷ 1 ∷ 2 ∷ 3 ∷ 4 ∷ 0 ∷ 0 ∷ []))
        2 (0 ∷ 0 ∷ 0 ∷ 7 ∷ 5 ∷ 6 ∷ 7 ∷ 8 ∷ 0 ∷ 0 ∷ [])) 7 (0 ∷ 0 ∷ 0 ∷ 0 ∷ 9 ∷ 0 ∷ 0 ∷ 0 ∷ 0 ∷ 0 ∷ []) in
        HoldChain pages 10 8 (5 ∷ 2 ∷ 7 ∷ []) (1 ∷ 2 ∷ 3 ∷ 4 ∷ 5 ∷ 6 ∷ 7 ∷ 8 ∷ 9 ∷ []) }
{}

/// A page that stands twice in a list; the next pages past the end of 16383 and of 16384 pages of 65536 bytes, between which the lock-byte page 16385 lies; which pages of 16390 are due; and how many may be taken, of two free ones and those past 16380 up to 16390.
#[tactic(auto, unfolding(crate::specs::FreePages::due, crate::specs::FreePages::due_pages))]
pub fn worked_free_pages()
    ensures twice { times 5 (5 ∷ 2 ∷ 5 ∷ []) ≡ 2 }
    ensures next { page_past 65536 16383 ≡ 16384 }
    ensures behind { page_past 65536 16384 ≡ 16386 }
    ensures due_page { due 65536 16390 16384 ≡ 1 }
    ensures lock_byte { due 65536 16390 16385 ≡ 0 }
    ensures past { due 65536 16390 16391 ≡ 0 }
    ensures slack_is { slack 65536 16380 16390 (2 ∷ 3 ∷ []) ≡ 11 }
{}

/// A freelist of an empty trunk 3 behind trunk 2 with the leaf pages 5 and 4, in a database of five pages; and the most leaf pages of a trunk.
pub fn worked_freelist()
    ensures list { let pages : Pages = with_page (with_page (with_page (λ _. []) 1 (replicate 32 7 ++ 0 ∷ 0 ∷ 0 ∷ 2 ∷ 0 ∷ 0 ∷ 0 ∷ 4 ∷ 7 ∷ []))
        2 (0 ∷ 0 ∷ 0 ∷ 3 ∷ 0 ∷ 0 ∷ 0 ∷ 2 ∷ 0 ∷ 0 ∷ 0 ∷ 5 ∷ 0 ∷ 0 ∷ 0 ∷ 4 ∷ 9 ∷ 9 ∷ [])) 3 (0 ∷ 0 ∷ 0 ∷ 0 ∷ 0 ∷ 0 ∷ 0 ∷ 0 ∷ 9 ∷ 9 ∷ []) in
        let second : Trunk = record { page = 2; leaves = 5 ∷ 4 ∷ [] } in
        let third : Trunk = record { page = 3; leaves = [] } in
        IsFreelist pages 512 512 5 (second ∷ third ∷ []) }
    ensures most { trunk_limit 512 ≡ 126 }
{}

/// A leaf of 24 bytes with a cell of two bytes, which takes four, at the end, and the same as a leaf of 25 bytes, with a byte behind the cell; an empty leaf of 65536 bytes; and the free bytes of empty pages.
pub fn worked_rooms()
    ensures no_hole { HasNoHole (13 ∷ 0 ∷ 0 ∷ 0 ∷ 1 ∷ 0 ∷ 20 ∷ 0 ∷ 0 ∷ 20 ∷ replicate 14 0) 2 24 TableLeaf ((0 ∷ 0 ∷ []) ∷ []) }
    ensures hole { ¬ HasNoHole (13 ∷ 0 ∷ 0 ∷ 0 ∷ 1 ∷ 0 ∷ 20 ∷ 0 ∷ 0 ∷ 20 ∷ replicate 15 0) 2 25 TableLeaf ((0 ∷ 0 ∷ []) ∷ []) }
    ensures empty { IsWritten (13 ∷ 0 ∷ 0 ∷ 0 ∷ 0 ∷ 0 ∷ 0 ∷ 0 ∷ []) 2 65536 TableLeaf [] 0 }
    ensures first { free_bytes 1 512 TableLeaf [] ≡ 404 }
    ensures interior { free_bytes 2 512 TableInterior [] ≡ 500 }
    ensures one_cell { free_bytes 2 512 TableLeaf ((0 ∷ 0 ∷ []) ∷ []) ≡ 498 }
{}
