// The rules of a crash, and what follows from them.
ghost use Rattle.std.specs.Prelude.{◌≡◌, ◌⊎◌, ◌<◌, ◌≤◌, ℕ, Bool, IsTrue, List, length, take, slice_index, Option, Some, is_some};
ghost use Rattle.file_spec.specs.declared.FileName.{FileName};
ghost use Rattle.file_spec.specs.declared.DiskCall.{DiskCall};
ghost use Rattle.byte_fields.specs.Bytes.{resized};
ghost use Rattle.file_spec.specs.Files.{Files, with_file, after_write, after_set_len, after_create, after_remove, after_rename};
ghost use Rattle.file_spec.specs.Faults.{AfterTornWrite, AfterFailedSetLen, IsCut, IsTorn};
ghost use Rattle.file_spec.specs.Records.{Every, HoldsAll, IsFirm, IsImage, IsSound, IsStill, MayHold, Names, Record, Stored, Untouched, at_rest, shown_files, stable};
ghost use Rattle.file_spec.specs.Trails.{IsImageSince, Passes, Trail, clock};
ghost use Rattle.file_spec.specs.Steps.{AfterCrash, Changes, Creates, Cut, FailsStill, LengthSet, Torn, Written, folder_synced, length_pending, removed_at, renamed_at, synced_at, with_names, with_stored, write_pending};

/// Until a sync each range that was written, cut or grown may hold any bytes, and the length may be any since; other
/// bytes stay. So bytes that no pending range reaches are the same in every image.
pub fn pending_ranges_hold_any_bytes()
    ensures written { (at n : ℕ) (s : Stored) (shown bytes : List ℕ) → MayHold s s.shown → IsTorn at n s.shown bytes → MayHold (write_pending at n shown s) bytes }
    ensures length_set { (n : ℕ) (s : Stored) (shown bytes : List ℕ) → MayHold s s.shown → IsCut n s.shown bytes → MayHold (length_pending n shown s) bytes }
    ensures cut_and_grown { (s : Stored) (n m : ℕ) (bytes : List ℕ) (i : ℕ) → n ≤ i → i < m →
        ¬ (Untouched (length_pending m bytes (length_pending n (resized s.shown n) s)).ranges i) }
    ensures untouched { (s : Stored) (a b : List ℕ) (i : ℕ) → MayHold s a → MayHold s b → i < length s.synced → i < length a → i < length b →
        Untouched s.ranges i → slice_index a i ≡ slice_index b i }
    ensures firm { (n : ℕ) (s : Stored) (a b : List ℕ) → IsFirm n s → MayHold s a → MayHold s b → take n a ≡ take n b }
    ensures others { (r : Record) (name : FileName) (still : IsStill name r) (s : Stored) (bytes : List ℕ) → MayHold (r.stored still.id) bytes →
        (files : Files) → IsImage (with_stored r still.id s) files → IsImage r (with_file files name (Some bytes)) }
    ensures moves { (r : Record) (from to : FileName) (number : Option ℕ) → (renamed_at r from to number).stored ≡ r.stored }
{}

/// A crash leaves the first changes of names since the folder was synced, all or fewer: after one more change an image is
/// one from before it, or has all names as they are now.
pub fn names_are_of_one_moment()
    ensures now { (r : Record) (names : Names) (files : Files) → IsImage (with_names r names) files → IsImage r files ⊎ HoldsAll r.stored names files }
    ensures each { (r : Record) (names : Names) (files : Files) → IsImage r files ⊎ HoldsAll r.stored names files → IsImage (with_names r names) files }
{}

/// After a sync every image has the file's shown bytes, and after a sync of the folder the shown names. Neither adds an
/// image.
pub fn syncs_make_stable()
    ensures file { (r : Record) (name : FileName) (still : IsStill name r) (files : Files) → IsImage (synced_at r (r.names name)) files →
        files name ≡ shown_files r name }
    ensures anywhere { (r : Record) (id : ℕ) (files : Files) (image : IsImage (synced_at r (Some id)) files) (name : FileName) →
        image.0 name ≡ Some id → files name ≡ Some (r.stored id).shown }
    ensures file_fewer { (r : Record) (number : Option ℕ) → IsSound r → (files : Files) → IsImage (synced_at r number) files → IsImage r files }
    ensures folder { (r : Record) (files : Files) → IsImage (folder_synced r) files → HoldsAll r.stored r.names files }
    ensures names { (r : Record) (files : Files) → IsImage (folder_synced r) files → (name : FileName) → is_some (files name) ≡ is_some (shown_files r name) }
    ensures folder_fewer { (r : Record) (files : Files) → IsImage (folder_synced r) files → IsImage r files }
{}

/// A failed write or change of length leaves any bytes in its range; what could be left before it can be left after it. A
/// failed sync, and a failed call on a name, change nothing that is shown and add no image; a failed sync may have made
/// any part stable, by which the images are at most fewer.
pub fn failed_calls_leave()
    ensures torn { (name : FileName) (at n : ℕ) (r q : Record) → IsSound r → Changes (Torn at n) name r q →
        AfterTornWrite name at n (shown_files r) (shown_files q) × ((files : Files) → IsImage r files → IsImage q files) }
    ensures cut { (name : FileName) (n : ℕ) (r q : Record) → IsSound r → Changes (Cut n) name r q →
        AfterFailedSetLen name n (shown_files r) (shown_files q) × ((files : Files) → IsImage r files → IsImage q files) }
    ensures still { (file : FileName) (call : DiskCall) (a b : Trail) → FailsStill file call a b →
        (shown_files b.now.at ≡ shown_files a.now.at) × ((files : Files) → IsImage b.now.at files → IsImage a.now.at files) }
    ensures part { (r : Record) (id : ℕ) (s : Stored) → ((bytes : List ℕ) → MayHold s bytes → MayHold (r.stored id) bytes) →
        (files : Files) → IsImage (with_stored r id s) files → IsImage r files }
{}

/// After a crash the image that was left is the shown files and the only image.
pub fn crash_leaves_one_image()
    ensures shown { (files : Files) → shown_files (at_rest files) ≡ files }
    ensures only { (files left : Files) → IsImage (at_rest files) left → left ≡ files }
    ensures sound { (files : Files) → IsSound (at_rest files) }
    ensures trail { (a b : Trail) → AfterCrash a b → IsImage a.now.at (shown_files b.now.at) × Every (λ left. left ≡ shown_files b.now.at) b.now.at }
{}

/// The files that are shown are always an image, and each call that ends well leaves of them what it is said to leave.
pub fn records_show_files()
    ensures image { (r : Record) → IsSound r → IsImage r (shown_files r) }
    ensures written { (name : FileName) (at : ℕ) (bytes : List ℕ) (r q : Record) → IsSound r → Changes (Written at bytes) name r q →
        IsSound q × (shown_files q ≡ after_write (shown_files r) name at bytes) }
    ensures length_set { (name : FileName) (n : ℕ) (r q : Record) → IsSound r → Changes (LengthSet n) name r q →
        IsSound q × (shown_files q ≡ after_set_len (shown_files r) name n) }
    ensures created { (name : FileName) (r q : Record) → IsSound r → Creates name r q → IsSound q × (shown_files q ≡ after_create (shown_files r) name) }
    ensures synced { (r : Record) (name : FileName) → IsSound r →
        IsSound (synced_at r (r.names name)) × (shown_files (synced_at r (r.names name)) ≡ shown_files r) }
    ensures removed { (r : Record) (name : FileName) → IsSound r →
        IsSound (removed_at r name (r.names name)) × (shown_files (removed_at r name (r.names name)) ≡ after_remove (shown_files r) name) }
    ensures renamed { (r : Record) (from to : FileName) → IsSound r →
        IsSound (renamed_at r from to (r.names from)) × (shown_files (renamed_at r from to (r.names from)) ≡ after_rename (shown_files r) from to) }
    ensures settled { (r : Record) → IsSound r → IsSound (folder_synced r) × (shown_files (folder_synced r) ≡ shown_files r) }
{}

/// What holds of every image at the start of two calls and of every image of each moment that they add, as a test on files
/// says it, holds of every image that was left since the start, also where a call failed.
pub fn trails_go_on()
    ensures joined { (test : Files → Bool) (a b c : Trail) → Passes (Every (λ f. IsTrue (test f))) a b → Passes (Every (λ f. IsTrue (test f))) b c →
        Passes (Every (λ f. IsTrue (test f))) a c }
    ensures since { (test : Files → Bool) (a b : Trail) → Every (λ f. IsTrue (test f)) a.now.at → Passes (Every (λ f. IsTrue (test f))) a b →
        (files : Files) → IsImageSince (clock a) b files → IsTrue (test files) }
    ensures failed { (test : Files → Bool) (file : FileName) (call : DiskCall) (a b : Trail) → Every (λ f. IsTrue (test f)) a.now.at →
        FailsStill file call a b → Passes (Every (λ f. IsTrue (test f))) a b }
{}
