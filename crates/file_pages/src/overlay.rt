// Where pages stand.
ghost use Rattle.std.specs.Prelude.{◌≡◌, ◌<◌, ◌≤◌, Bool, true, Some, None, IfSome, IfNone, drop};
ghost use Rattle.std.specs.Option.{option_copied};
ghost use Rattle.byte_fields.specs.Bytes.{resized};
ghost use Rattle.file_spec.specs.declared.FileName.{FileName};
ghost use Rattle.file_spec.specs.declared.FileName.TheVariants.{Wal};
ghost use Rattle.file_spec.specs.Files.{Files, content};
ghost use Rattle.format_spec.specs.Log.{last_frame_of};
ghost use Rattle.file_pages.specs.Overlay.{Allows, HasPlaces, Suits, kept_frames, pages_over};

use rbu_disk::FileName;
use wal_codec::Log;
use wal_index::last_frame;

// Where something stands in a file, in bytes from its start.
#[derive(Clone, Copy)]
pub(crate) struct Place {
    pub file: FileName,
    pub at: u64,
}

// Where the write-ahead log has a page, by its last frame up to the last commit.
fn frame_place(log: &Log, number: u32) -> Option<u64>
    requires { HasPlaces log.now }
    ensures found { IfSome result (λ at. (files : Files) → last_frame_of number (kept_frames log.now files) ≡ Some (resized (drop at (content files Wal)) log.now.page_size)) }
    ensures none { IfNone result ((files : Files) → last_frame_of number (kept_frames log.now files) ≡ None) }
    ensures some { IfSome result (λ at. 0 < log.now.committed) }
{
    let Some(frame) = last_frame(log.frames.as_slice(), number, log.committed) else {
        return None;
    };
    let page_size = u64::from(log.page_size);
    Some(32 + frame * (24 + page_size) - page_size)
}

// Where a page of a file, or of its overlay by a log, is read.
pub(crate) fn page_place(log: Option<&Log>, file: FileName, page_size: u32, number: u32) -> Place
    requires suits { Suits (option_copied log) page_size }
    requires first { 1 ≤ number }
    ensures page { (files : Files) → pages_over page_size (option_copied log.entry) file files number ≡ resized (drop result.at (content files result.file)) page_size }
    ensures file { (allows : FileName → Bool) → allows file ≡ true → Allows (option_copied log.entry) (allows Wal) → allows result.file ≡ true }
{
    let in_file = Place {
        file,
        at: u64::from(number - 1) * u64::from(page_size),
    };
    let Some(log) = log else {
        return in_file;
    };
    match frame_place(log, number) {
        Some(at) => Place {
            file: FileName::Wal,
            at,
        },
        None => in_file,
    }
}
