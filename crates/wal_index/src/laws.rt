// What an index says of the overlay of a log.
ghost use Rattle.std.specs.Prelude.{◌≡◌, ℕ, ◌-◌, ◌<◌, ◌≤◌, List, length, take, slice_index_or, Some, None};
ghost use Rattle.format_spec.specs.Log.{Frame, last_commit, last_frame_of, overlay};
ghost use Rattle.format_spec.specs.PageMap.{PageMap};
ghost use Rattle.wal_index.specs.FrameIndex.{IsFrameOf, IsLastFrame};
ghost use Rattle.wal_index.specs.OverlayLaws.{numbers};

/// The last frame of a page is the one that the overlay of a log takes the page from; without a frame the page is as it was (Database File Format, section 4.5).
pub fn last_frame_is_overlaid()
    ensures page { (frames : List Frame) (page k : ℕ) (d : Frame) → IsLastFrame (numbers frames) page (length frames) k → last_frame_of page frames ≡ Some (slice_index_or frames (k - 1) d).page }
    ensures none { (frames : List Frame) (page : ℕ) → ((k : ℕ) → ¬ IsFrameOf (numbers frames) page k) → last_frame_of page frames ≡ None }
{}

/// What a reader with a mark sees, which is the overlay of the frames up to it: a page comes from its last frame at or below the mark, and is as it was where there is none, with
/// as many pages as the frame at the mark says (WAL-mode File Format, section 2). The frame at a mark ends a commit.
pub fn last_frame_up_to_a_mark_is_seen()
    ensures page { (base : PageMap) (frames : List Frame) (page mark k : ℕ) (d : Frame) → 0 < last_commit (take mark frames) → IsLastFrame (numbers frames) page mark k
        → (overlay base (take mark frames)).page page ≡ (slice_index_or frames (k - 1) d).page }
    ensures none { (base : PageMap) (frames : List Frame) (page mark : ℕ) → 0 < last_commit (take mark frames) → ((k : ℕ) → k ≤ mark → ¬ IsFrameOf (numbers frames) page k)
        → (overlay base (take mark frames)).page page ≡ base.page page }
    ensures count { (base : PageMap) (frames : List Frame) (mark : ℕ) → 0 < last_commit (take mark frames) → (overlay base (take mark frames)).count ≡ last_commit (take mark frames) }
{}
