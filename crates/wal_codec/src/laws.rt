// Laws about what is written.
ghost use Rattle.std.specs.Prelude.{◌≡◌, ◌%◌, ◌^◌, ◌<◌, ◌++◌, [], ◌∷◌, ℕ, Bool, true, List, length};
ghost use Rattle.format_spec.specs.Log.{AreFrames, AreWords, Frame, IsLog, checksum, frame_bytes, frame_sums, frames_bytes, log_header, log_sums, sums_behind};

/// The checksum of whole pairs of words goes on over what follows them.
pub fn checksum_goes_on()
    ensures { (big : Bool) (sums : ℕ × ℕ) (a b : List ℕ) → length a % 8 ≡ 0 → checksum big sums (a ++ b) ≡ checksum big (checksum big sums a) b }
{}

/// What `header_bytes` and then `frame_bytes` with its page for each frame make is a log of these frames. Each frame goes behind
/// those before it with the checksum that the last of them gave.
pub fn written_log_is_a_log()
    ensures log { (page_size : ℕ) (salt : ℕ × ℕ) (frames : List Frame) → page_size < 2 ^ 32 → AreWords salt → AreFrames page_size frames
        → IsLog (log_header true page_size 0 salt ++ frames_bytes true salt (log_sums true page_size 0 salt) frames) page_size frames }
    ensures one_more { (salt sums : ℕ × ℕ) (frames : List Frame) (frame : Frame)
        → frames_bytes true salt sums (frames ++ frame ∷ []) ≡ frames_bytes true salt sums frames ++ frame_bytes true salt (sums_behind true sums frames) frame }
    ensures sums { (sums : ℕ × ℕ) (frames : List Frame) (frame : Frame)
        → sums_behind true sums (frames ++ frame ∷ []) ≡ frame_sums true (sums_behind true sums frames) frame.number frame.commit frame.page }
{}
