// The files of a disk in memory as a crash finds them, computed from the list of its calls.
ghost use Rattle.std.specs.Prelude.{◌≡◌, ◌≤◌, ◌<◌, ◌+◌, ◌-◌, ◌^◌, ◌++◌, ◌∷◌, [], ℕ, length, replicate, map, slice_index_or, slice_set, option_map, IfOk, IfSome, OnOk, Option, Some, None};
ghost use Rattle.std.specs.List.{All};
ghost use Rattle.common_spec.specs.Maps.{set_at};
ghost use Rattle.byte_fields.specs.Bytes.{overwritten};
ghost use Rattle.file_spec.specs.declared.FileName.{FileName};
ghost use Rattle.file_spec.specs.Files.{content, is_name, name_index};
ghost use Rattle.file_spec.specs.Records.{MayHold, Record, Stored, at_rest, stable};
ghost use Rattle.file_spec.specs.Trails.{Trail};
ghost use Rattle.disk_memory.specs.declared.replay.Kept.{Kept};
ghost use Rattle.disk_memory.specs.declared.volume.Step.TheVariants.{Create, Remove, Rename, SetLen, Sync, SyncFolder, Write};
ghost use Rattle.disk_memory.specs.Volume.{IsFine, IsShort, files_at, first_trail, gone_on, length_set, trail_from, written};
ghost use Rattle.disk_memory.specs.Crash.{IsFilled, LeavesAt, LeavesBy, filling_of, kept_names, pending_byte};
ghost use Rattle.disk_memory.specs.Replay.{AddsFile, Agrees, Fits, IsNumbered, StandsAt, before_of, kept_at, names_of, numbers_at};

use crate::file::File;
use crate::volume::{NAMES, Step, given_bytes, place, replace_file};
use rbu_disk::FileName;
use std::alloc::{AllocError, Global};

/// What a pending byte becomes that is neither the old nor the shown one.
const MARK: u8 = 0xa5;

/// One file: the bytes that are shown, those of its last sync, and the shown ones with a mark at each pending place.
#[derive(Drop)]
pub struct Kept {
    shown: File,
    synced: File,
    marked: File,
}

/// So many marks.
fn marks(alloc: Global, n: usize) -> Result<Vec<u8>, AllocError>
    ensures { IfOk result (λ v. v.items ≡ replicate n 165) }
{
    vec![in alloc; MARK; n]
}

/// Marks the places from one to another.
fn mark(alloc: Global, file: &mut File, from: usize, to: usize) -> Result<(), AllocError>
    requires order { from ≤ to }
    requires short { to ≤ 2 ^ 62 }
    ensures { OnOk result (file.new ≡ overwritten file.old from (replicate (to - from) 165)) }
{
    let marks = marks(alloc, to - from)?;
    file.overwrite(from, &marks)
}

/// Sets the length of a file, whose new places are marked.
fn resize_marked(alloc: Global, file: &mut File, n: usize) -> Result<(), AllocError>
    requires { n ≤ 2 ^ 62 }
    ensures { OnOk result ((s : Stored) → IsFilled (λ _. 165) s file.old → IsFilled (λ _. 165) (length_set n s) file.new) }
{
    let len = file.as_slice().len();
    if n <= len {
        return file.resize(n);
    }
    mark(alloc, file, len, n)
}

impl Kept {
    /// A file of which all is stable.
    fn stable(alloc: Global, bytes: &[u8]) -> Result<Kept, AllocError>
        ensures { IfOk result (λ kept. Agrees kept (stable bytes.now)) }
    {
        Ok(Kept {
            shown: File::copied(alloc, bytes)?,
            synced: File::copied(alloc, bytes)?,
            marked: File::copied(alloc, bytes)?,
        })
    }

    /// A write is pending from its place on, or from the end on where that is earlier.
    fn write(&mut self, alloc: Global, at: usize, bytes: &[u8]) -> Result<(), AllocError>
        requires { at + length bytes.now ≤ 2 ^ 62 }
        ensures { OnOk result ((s : Stored) → Agrees self.old s → Agrees self.new (written at bytes.now s)) }
    {
        let from = at.min(self.shown.as_slice().len());
        mark(alloc, &mut self.marked, from, at + bytes.len())?;
        self.shown.overwrite(at, bytes)
    }

    /// What grows is pending, and of what is cut nothing is left.
    fn set_len(&mut self, alloc: Global, n: usize) -> Result<(), AllocError>
        requires { n ≤ 2 ^ 62 }
        ensures { OnOk result ((s : Stored) → Agrees self.old s → Agrees self.new (length_set n s)) }
    {
        resize_marked(alloc, &mut self.marked, n)?;
        self.shown.resize(n)
    }

    /// Nothing is pending.
    fn sync(&mut self, alloc: Global) -> Result<(), AllocError>
        ensures { OnOk result ((s : Stored) → Agrees self.old s → Agrees self.new (stable s.shown)) }
    {
        self.synced = File::copied(alloc, self.shown.as_slice())?;
        self.marked = File::copied(alloc, self.shown.as_slice())?;
        Ok(())
    }

    /// The file with its pending places filled: by 0 with the bytes of the last sync, by 1 as shown, by 2 with marks.
    fn filled(&self, alloc: Global, filling: u64) -> Result<File, AllocError>
        ensures { IfOk result (λ file. (s : Stored) → MayHold s s.shown → Agrees self.now s → IsFilled (pending_byte filling s) s file) }
    {
        if filling == 0 {
            let mut file = File::copied(alloc, self.synced.as_slice())?;
            file.resize(self.shown.as_slice().len())?;
            return Ok(file);
        }
        if filling == 1 {
            return File::copied(alloc, self.shown.as_slice());
        }
        File::copied(alloc, self.marked.as_slice())
    }
}

/// Writes into the file of a number.
fn write_file(
    alloc: Global,
    files: &mut Vec<Kept>,
    id: usize,
    at: usize,
    bytes: &[u8],
) -> Result<(), AllocError>
    requires index { id < length files.old.items }
    requires short { at + length bytes.now ≤ 2 ^ 62 }
    ensures { OnOk result ((kept : Kept) × (files.new.items ≡ slice_set files.old.items id kept) × ((s : Stored) → Agrees (kept_at files.old.items id) s → Agrees kept (written at bytes.now s))) }
{
    files[id].write(alloc, at, bytes)
}

/// Sets the length of the file of a number.
fn resize_file(alloc: Global, files: &mut Vec<Kept>, id: usize, n: usize) -> Result<(), AllocError>
    requires index { id < length files.old.items }
    requires short { n ≤ 2 ^ 62 }
    ensures { OnOk result ((kept : Kept) × (files.new.items ≡ slice_set files.old.items id kept) × ((s : Stored) → Agrees (kept_at files.old.items id) s → Agrees kept (length_set n s))) }
{
    files[id].set_len(alloc, n)
}

/// Makes the file of a number stable.
fn sync_file(alloc: Global, files: &mut Vec<Kept>, id: usize) -> Result<(), AllocError>
    requires { id < length files.old.items }
    ensures { OnOk result ((kept : Kept) × (files.new.items ≡ slice_set files.old.items id kept) × ((s : Stored) → Agrees (kept_at files.old.items id) s → Agrees kept (stable s.shown))) }
{
    files[id].sync(alloc)
}

/// The number of the file that a name has.
fn number_of(numbers: &[Option<usize>; 7], name: FileName) -> Option<usize>
    ensures { result ≡ numbers_at numbers.now name }
{
    numbers[place(name)]
}

/// Puts a number or none under a name.
fn put_number(numbers: &mut [Option<usize>; 7], name: FileName, number: Option<usize>)
    ensures { numbers_at numbers.new ≡ set_at is_name (numbers_at numbers.old) name number }
{
    numbers[place(name)] = number;
}

/// The files by their numbers, their names, and the names before each change since the folder was synced, the oldest
/// first.
#[derive(Drop)]
pub struct Replay {
    alloc: Global,
    files: Vec<Kept>,
    names: [Option<usize>; 7],
    before: Vec<[Option<usize>; 7]>,
}

impl Replay {
    /// Adds a file of no bytes, and gives its number.
    fn add_file(&mut self) -> Result<usize, AllocError>
        ensures { IfOk result (AddsFile self.old self.new) }
    {
        let fresh = self.files.len();
        let kept = Kept::stable(self.alloc, &[])?;
        self.files.push(kept)?;
        Ok(fresh)
    }

    /// The number of a name's file, which is the fresh one where it has none.
    fn number(&mut self, name: FileName, fresh: usize) -> Result<usize, AllocError>
        ensures number { IfOk result (λ id. IsNumbered name fresh id (names_of self.old name) (names_of self.old) (names_of self.new) (before_of self.old) (before_of self.new)) }
        ensures files { self.new.files ≡ self.old.files }
    {
        if let Some(id) = number_of(&self.names, name) {
            return Ok(id);
        }
        self.before.push(self.names)?;
        put_number(&mut self.names, name, Some(fresh));
        Ok(fresh)
    }

    /// Writes at a place; a missing file is made first.
    fn write(&mut self, name: FileName, at: usize, bytes: &[u8]) -> Result<(), AllocError>
        requires stands { (t : Trail) × IsFine t × StandsAt self.old t }
        requires short { at + length bytes.now ≤ 2 ^ 62 }
        ensures { OnOk result ((t : Trail) → IsFine t → StandsAt self.old t → StandsAt self.new (gone_on t (Write name at bytes.now))) }
    {
        let fresh = self.add_file()?;
        let id = self.number(name, fresh)?;
        write_file(self.alloc, &mut self.files, id, at, bytes)
    }

    /// Sets the length; a missing file is made first.
    fn set_len(&mut self, name: FileName, n: usize) -> Result<(), AllocError>
        requires stands { (t : Trail) × IsFine t × StandsAt self.old t }
        requires short { n ≤ 2 ^ 62 }
        ensures { OnOk result ((t : Trail) → IsFine t → StandsAt self.old t → StandsAt self.new (gone_on t (SetLen name n))) }
    {
        let fresh = self.add_file()?;
        let id = self.number(name, fresh)?;
        resize_file(self.alloc, &mut self.files, id, n)
    }

    /// Makes an empty file where there is none.
    fn create(&mut self, name: FileName) -> Result<(), AllocError>
        ensures { OnOk result ((t : Trail) → IsFine t → StandsAt self.old t → StandsAt self.new (gone_on t (Create name))) }
    {
        let fresh = self.add_file()?;
        let _ = self.number(name, fresh)?;
        Ok(())
    }

    /// Makes the file's bytes stable.
    fn sync(&mut self, name: FileName) -> Result<(), AllocError>
        requires stands { (t : Trail) × IsFine t × StandsAt self.old t }
        ensures { OnOk result ((t : Trail) → IsFine t → StandsAt self.old t → StandsAt self.new (gone_on t (Sync name))) }
    {
        let _ = self.add_file()?;
        match number_of(&self.names, name) {
            Some(id) => sync_file(self.alloc, &mut self.files, id),
            None => Ok(()),
        }
    }

    /// Removes the file where there is one.
    fn remove(&mut self, name: FileName) -> Result<(), AllocError>
        ensures { OnOk result ((t : Trail) → IsFine t → StandsAt self.old t → StandsAt self.new (gone_on t (Remove name))) }
    {
        let _ = self.add_file()?;
        let Some(_) = number_of(&self.names, name) else {
            return Ok(());
        };
        self.before.push(self.names)?;
        put_number(&mut self.names, name, None);
        Ok(())
    }

    /// Gives the file another name, in place of what that had.
    fn rename(&mut self, from: FileName, to: FileName) -> Result<(), AllocError>
        ensures { OnOk result ((t : Trail) → IsFine t → StandsAt self.old t → StandsAt self.new (gone_on t (Rename from to))) }
    {
        let _ = self.add_file()?;
        let Some(id) = number_of(&self.names, from) else {
            return Ok(());
        };
        self.before.push(self.names)?;
        put_number(&mut self.names, from, None);
        put_number(&mut self.names, to, Some(id));
        Ok(())
    }

    /// Makes the names stable.
    fn sync_folder(&mut self) -> Result<(), AllocError>
        ensures { OnOk result ((t : Trail) → IsFine t → StandsAt self.old t → StandsAt self.new (gone_on t SyncFolder)) }
    {
        let _ = self.add_file()?;
        self.before.clear();
        Ok(())
    }

    /// Makes a call again.
    fn apply(&mut self, step: &Step) -> Result<(), AllocError>
        requires stands { (t : Trail) × IsFine t × StandsAt self.old t }
        requires short { IsShort step.now }
        ensures { OnOk result ((t : Trail) → IsFine t → StandsAt self.old t → StandsAt self.new (gone_on t step.now)) }
    {
        match step {
            Step::Write { name, at, bytes } => { self.write(*name, *at as usize, bytes.as_slice()) }
            Step::SetLen { name, n } => self.set_len(*name, *n as usize),
            Step::Sync { name } => self.sync(*name),
            Step::Create { name } => self.create(*name),
            Step::Remove { name } => self.remove(*name),
            Step::Rename { from, to } => self.rename(*from, *to),
            Step::SyncFolder => self.sync_folder(),
        }
    }

    /// The names after the first changes that a choice keeps.
    fn kept_numbers(&self, choice: u64) -> [Option<usize>; 7]
        ensures { (r : Record) → Fits self.now.files.items (names_of self.now) (before_of self.now) r → numbers_at result ≡ kept_names choice r }
    {
        let kept = choice % (self.before.len() as u64 + 1);
        if kept < self.before.len() as u64 {
            self.before[kept as usize]
        } else {
            self.names
        }
    }

    /// How a choice fills pending places.
    fn filling(&self, choice: u64) -> u64
        ensures { (r : Record) → Fits self.now.files.items (names_of self.now) (before_of self.now) r → result ≡ filling_of choice r }
    {
        choice / (self.before.len() as u64 + 1) % 3
    }

    /// The file of a number with its pending places filled, or none where there is no number.
    fn left(
        &self,
        alloc: Global,
        filling: u64,
        number: Option<usize>,
    ) -> Result<Option<File>, AllocError>
        requires { IfSome number (λ id. id < length self.now.files.items) }
        ensures { IfOk result (λ file. (stored : ℕ → Stored) → ((id : ℕ) → number ≡ Some id → MayHold (stored id) (stored id).shown × Agrees (kept_at self.now.files.items id) (stored id)) →
            LeavesAt filling stored number file) }
    {
        match number {
            Some(id) => Ok(Some(self.files[id].filled(alloc, filling)?)),
            None => Ok(None),
        }
    }

    /// The files that a crash leaves by a choice, by the places of their names.
    pub fn crash(&self, alloc: Global, choice: u64) -> Result<[Option<File>; 7], AllocError>
        requires { (t : Trail) × IsFine t × StandsAt self.now t }
        ensures { IfOk result (λ places. (t : Trail) → IsFine t → StandsAt self.now t → LeavesBy choice t.now.at (files_at places)) }
    {
        let numbers = self.kept_numbers(choice);
        let filling = self.filling(choice);
        let mut places = [None, None, None, None, None, None, None];
        for name in &NAMES {
            let file = self.left(alloc, filling, number_of(&numbers, *name))?;
            let _ = replace_file(&mut places, *name, file);
        }
        Ok(places)
    }
}

/// The number of a file that was given, which is the place of its name.
fn first_number(start: &[Option<File>; 7], name: FileName) -> Option<usize>
    ensures { result ≡ option_map (λ _. name_index name) (files_at start.now name) }
{
    match given_bytes(start, name) {
        Some(_) => Some(place(name)),
        None => None,
    }
}

/// The numbers of the files that were given.
fn first_numbers(start: &[Option<File>; 7]) -> [Option<usize>; 7]
    ensures { numbers_at result ≡ (at_rest (files_at start.now)).names }
{
    [
        first_number(start, FileName::Target),
        first_number(start, FileName::Oal),
        first_number(start, FileName::Wal),
        first_number(start, FileName::Journal),
        first_number(start, FileName::Rbu),
        first_number(start, FileName::State),
        first_number(start, FileName::StateTemp),
    ]
}

/// The bytes that were given under a name; a missing file has none.
fn given_content(start: &[Option<File>; 7], name: FileName) -> &[u8]
    ensures { result.now ≡ content (files_at start.now) name }
{
    match given_bytes(start, name) {
        Some(bytes) => bytes,
        None => &[],
    }
}

/// The files that were given, by their numbers.
fn first_files(alloc: Global, start: &[Option<File>; 7]) -> Result<Vec<Kept>, AllocError>
    ensures long { IfOk result (λ files. length files.items ≡ 7) }
    ensures files { IfOk result (λ files. (name : FileName) → Agrees (kept_at files.items (name_index name)) (stable (content (files_at start.now) name))) }
{
    let mut files = Vec::new(alloc);
    for name in &NAMES {
        let kept = Kept::stable(alloc, given_content(start, *name))?;
        files.push(kept)?;
    }
    Ok(files)
}

/// A disk that was made with the given files, before any call.
fn first_replay(alloc: Global, start: &[Option<File>; 7]) -> Result<Replay, AllocError>
    ensures { IfOk result (λ replay. StandsAt replay (first_trail (files_at start.now))) }
{
    Ok(Replay {
        alloc,
        files: first_files(alloc, start)?,
        names: first_numbers(start),
        before: Vec::new(alloc),
    })
}

/// Makes all calls again.
pub fn replayed(
    alloc: Global,
    start: &[Option<File>; 7],
    steps: &[Step],
) -> Result<Replay, AllocError>
    requires { All IsShort steps.now }
    ensures { IfOk result (λ replay. StandsAt replay (trail_from (first_trail (files_at start.now)) steps.now)) }
{
    let mut replay = first_replay(alloc, start)?;
    for step in steps {
        replay.apply(step)?;
    }
    Ok(replay)
}
