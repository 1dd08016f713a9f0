// The files of a disk in memory, beside those that it was given and the list of its calls.
ghost use Rattle.std.specs.Prelude.{◌≡◌, ◌+◌, ◌≤◌, ◌<◌, ◌^◌, [], length, map, option_map, IfOk, OnOk, OnErr, Some, None, unwrap_or};
ghost use Rattle.common_spec.specs.Maps.{set_at};
ghost use Rattle.byte_fields.specs.Bytes.{overwritten, resized};
ghost use Rattle.file_spec.specs.Files.{after_create, after_rename, after_set_len, after_write, is_name, name_index, with_file};
ghost use Rattle.disk_memory.specs.declared.volume.Step.TheVariants.{Create, Remove, Rename, SetLen, Sync, SyncFolder, Write};
ghost use Rattle.disk_memory.specs.Volume.{files_at, files_in, first_entries, slot_at, slot_file, slot_files, trail_of, with_step};
ghost use Rattle.disk_memory.specs.Crash.{LeavesBy};

use crate::file::File;
use crate::replay::replayed;
use rbu_disk::FileName;
use std::alloc::{AllocError, Global};
use std::marker::Model;
use std::mem;

/// The names in order.
pub const NAMES: [FileName; 7] = [
    FileName::Target,
    FileName::Oal,
    FileName::Wal,
    FileName::Journal,
    FileName::Rbu,
    FileName::State,
    FileName::StateTemp,
];

/// A call that ended well and was no look, with what it was given.
#[derive(Drop)]
pub enum Step {
    Write {
        name: FileName,
        at: u64,
        bytes: File,
    },
    SetLen {
        name: FileName,
        n: u64,
    },
    Sync {
        name: FileName,
    },
    Create {
        name: FileName,
    },
    Remove {
        name: FileName,
    },
    Rename {
        from: FileName,
        to: FileName,
    },
    SyncFolder,
}

/// What a name has.
#[derive(Drop)]
pub enum Slot {
    Missing,
    /// The file that was given under this name, if one was.
    Given(FileName),
    /// A file that was made or written since.
    Own(File),
}

/// Files that know which calls were made on them. A call that finds no memory changes nothing.
#[derive(Drop)]
pub struct Volume {
    alloc: Global,
    start: [Option<File>; 7],
    slots: [Slot; 7],
    steps: Vec<Step>,
}

impl Model for Volume {
    ghost use Rattle.std.specs.Prelude.{◌≡◌};
    ghost use Rattle.std.specs.List.{All};
    ghost use Rattle.disk_memory.specs.Volume.{IsShort, VolumeState, files_at, files_in, slot_files};

    ghost Value = { VolumeState };

    ghost view = { λ v. record { start = v.start; steps = v.steps.items } };

    ghost invariant = { λ v. (slot_files (files_at v.start) v.slots ≡ files_in (record { start = v.start; steps = v.steps.items })) × All IsShort v.steps.items };
}

/// The place of a name among the names.
pub fn place(name: FileName) -> usize
    ensures value { result ≡ name_index name }
    ensures bound { result < 7 }
{
    name as usize
}

/// Puts a file or none under a name, and gives what that had.
pub fn replace_file(
    places: &mut [Option<File>; 7],
    name: FileName,
    file: Option<File>,
) -> Option<File>
    ensures value { result ≡ files_at places.old name }
    ensures after { files_at places.new ≡ with_file (files_at places.old) name file }
{
    mem::replace(&mut places[place(name)], file)
}

/// The slot of a name.
fn slot_of(slots: &[Slot; 7], name: FileName) -> &Slot
    ensures { result.now ≡ slot_at slots.now name }
{
    &slots[place(name)]
}

/// Puts a slot under a name, and gives what that had.
fn replace_slot(slots: &mut [Slot; 7], name: FileName, slot: Slot) -> Slot
    ensures value { result ≡ slot_at slots.old name }
    ensures after { slot_at slots.new ≡ set_at is_name (slot_at slots.old) name slot }
{
    mem::replace(&mut slots[place(name)], slot)
}

/// The bytes by the places of their names; of two entries with one name the first counts.
fn places_of(mut files: Vec<(FileName, Vec<u8>)>) -> [Option<File>; 7]
    ensures { files_at result ≡ first_entries (map (λ entry. (entry.0, entry.1.items)) files.items) }
{
    let mut places = [None, None, None, None, None, None, None];
    while let Some((name, bytes)) = files.pop() {
        let _ = replace_file(&mut places, name, Some(File::from_vec(bytes)));
    }
    places
}

/// The bytes that were given under a name.
pub fn given_bytes(start: &[Option<File>; 7], name: FileName) -> Option<&[u8]>
    ensures { option_map (λ bytes. bytes.now) result ≡ files_at start.now name }
{
    match &start[place(name)] {
        Some(file) => Some(file.as_slice()),
        None => None,
    }
}

/// The bytes that a slot shows.
fn slot_bytes<'a>(start: &'a [Option<File>; 7], slot: &'a Slot) -> Option<&'a [u8]>
    ensures { option_map (λ bytes. bytes.now) result ≡ slot_file (files_at start.now) slot.now }
{
    match slot {
        Slot::Missing => None,
        Slot::Given(name) => given_bytes(start, *name),
        Slot::Own(file) => Some(file.as_slice()),
    }
}

/// A copy of the file that a slot shows; an empty one where it shows none.
fn slot_copy(alloc: Global, start: &[Option<File>; 7], slot: &Slot) -> Result<File, AllocError>
    ensures { IfOk result (λ file. file ≡ unwrap_or (slot_file (files_at start.now) slot.now) []) }
{
    match slot_bytes(start, slot) {
        Some(bytes) => File::copied(alloc, bytes),
        None => Ok(File::new(alloc)),
    }
}

/// Writes at a place of the file in a slot, which is copied or made first where it is not its own.
fn write_slot(
    alloc: Global,
    start: &[Option<File>; 7],
    slot: &mut Slot,
    at: usize,
    bytes: &[u8],
) -> Result<(), AllocError>
    requires { at + length bytes.now ≤ 2 ^ 62 }
    ensures done { OnOk result (slot_file (files_at start.now) slot.new ≡ Some (overwritten (unwrap_or (slot_file (files_at start.now) slot.old) []) at bytes.now)) }
    ensures failed { OnErr result (slot.new ≡ slot.old) }
{
    if let Slot::Own(file) = slot {
        return file.overwrite(at, bytes);
    }
    let mut file = slot_copy(alloc, start, slot)?;
    file.overwrite(at, bytes)?;
    *slot = Slot::Own(file);
    Ok(())
}

/// Sets the length of the file in a slot, which is copied or made first where it is not its own.
fn resize_slot(
    alloc: Global,
    start: &[Option<File>; 7],
    slot: &mut Slot,
    n: usize,
) -> Result<(), AllocError>
    ensures done { OnOk result (slot_file (files_at start.now) slot.new ≡ Some (resized (unwrap_or (slot_file (files_at start.now) slot.old) []) n)) }
    ensures failed { OnErr result (slot.new ≡ slot.old) }
{
    if let Slot::Own(file) = slot {
        return file.resize(n);
    }
    let mut file = slot_copy(alloc, start, slot)?;
    file.resize(n)?;
    *slot = Slot::Own(file);
    Ok(())
}

/// Makes an empty file in a slot that shows none.
fn fill_slot(alloc: Global, start: &[Option<File>; 7], slot: &mut Slot)
    ensures { slot_file (files_at start.now) slot.new ≡ Some (unwrap_or (slot_file (files_at start.now) slot.old) []) }
{
    if slot_bytes(start, slot).is_none() {
        *slot = Slot::Own(File::new(alloc));
    }
}

/// Writes at a place of the file under a name.
fn write_in(
    alloc: Global,
    start: &[Option<File>; 7],
    slots: &mut [Slot; 7],
    name: FileName,
    at: usize,
    bytes: &[u8],
) -> Result<(), AllocError>
    requires { at + length bytes.now ≤ 2 ^ 62 }
    ensures done { OnOk result (slot_files (files_at start.now) slots.new ≡ after_write (slot_files (files_at start.now) slots.old) name at bytes.now) }
    ensures failed { OnErr result (slot_files (files_at start.now) slots.new ≡ slot_files (files_at start.now) slots.old) }
{
    let mut slot = replace_slot(slots, name, Slot::Missing);
    let written = write_slot(alloc, start, &mut slot, at, bytes);
    let _ = replace_slot(slots, name, slot);
    written
}

/// Sets the length of the file under a name.
fn resize_in(
    alloc: Global,
    start: &[Option<File>; 7],
    slots: &mut [Slot; 7],
    name: FileName,
    n: usize,
) -> Result<(), AllocError>
    ensures done { OnOk result (slot_files (files_at start.now) slots.new ≡ after_set_len (slot_files (files_at start.now) slots.old) name n) }
    ensures failed { OnErr result (slot_files (files_at start.now) slots.new ≡ slot_files (files_at start.now) slots.old) }
{
    let mut slot = replace_slot(slots, name, Slot::Missing);
    let resized = resize_slot(alloc, start, &mut slot, n);
    let _ = replace_slot(slots, name, slot);
    resized
}

/// Makes an empty file under a name that has none.
fn create_in(alloc: Global, start: &[Option<File>; 7], slots: &mut [Slot; 7], name: FileName)
    ensures { slot_files (files_at start.now) slots.new ≡ after_create (slot_files (files_at start.now) slots.old) name }
{
    let mut slot = replace_slot(slots, name, Slot::Missing);
    fill_slot(alloc, start, &mut slot);
    let _ = replace_slot(slots, name, slot);
}

/// Gives the file under a name another name, in place of what that had. A missing file changes nothing.
fn rename_in(start: &[Option<File>; 7], slots: &mut [Slot; 7], from: FileName, to: FileName)
    ensures { slot_files (files_at start.now) slots.new ≡ after_rename (slot_files (files_at start.now) slots.old) from to }
{
    let slot = replace_slot(slots, from, Slot::Missing);
    if slot_bytes(start, &slot).is_some() {
        let _ = replace_slot(slots, to, slot);
    }
}

impl Volume {
    /// The files that are given; of two entries with one name the first counts. Takes no memory.
    pub fn new(alloc: Global, files: Vec<(FileName, Vec<u8>)>) -> Volume
        ensures start { files_at result.start ≡ first_entries (map (λ entry. (entry.0, entry.1.items)) files.items) }
        ensures steps { result.steps ≡ [] }
    {
        Volume::from_places(alloc, places_of(files))
    }

    /// The files by the places of their names. Takes no memory.
    fn from_places(alloc: Global, start: [Option<File>; 7]) -> Volume
        ensures start { result.start ≡ start }
        ensures steps { result.steps ≡ [] }
    {
        Volume {
            alloc,
            start,
            slots: [
                Slot::Given(FileName::Target),
                Slot::Given(FileName::Oal),
                Slot::Given(FileName::Wal),
                Slot::Given(FileName::Journal),
                Slot::Given(FileName::Rbu),
                Slot::Given(FileName::State),
                Slot::Given(FileName::StateTemp),
            ],
            steps: Vec::new(alloc),
        }
    }

    /// The files that a crash leaves by a choice.
    pub fn crash(&self, alloc: Global, choice: u64) -> Result<Volume, AllocError>
        ensures left { IfOk result (λ volume. LeavesBy choice (trail_of self.now).now.at (files_at volume.start)) }
        ensures steps { IfOk result (λ volume. volume.steps ≡ []) }
    {
        let replay = replayed(alloc, &self.start, self.steps.as_slice())?;
        Ok(Volume::from_places(alloc, replay.crash(alloc, choice)?))
    }

    /// The bytes under the name, or nothing for a missing file.
    pub fn contents(&self, name: FileName) -> Option<&[u8]>
        ensures { option_map (λ bytes. bytes.now) result ≡ files_in self.now name }
    {
        slot_bytes(&self.start, slot_of(&self.slots, name))
    }

    /// Writes at a place; a missing file is made first.
    pub fn write(&mut self, name: FileName, at: u64, bytes: &[u8]) -> Result<(), AllocError>
        requires { at + length bytes.now ≤ 2 ^ 62 }
        ensures done { OnOk result (self.new ≡ with_step self.old (Write name at bytes.now)) }
        ensures failed { OnErr result (self.new ≡ self.old) }
    {
        let copy = File::copied(self.alloc, bytes)?;
        self.steps.push(Step::Write {
            name,
            at,
            bytes: copy,
        })?;
        match write_in(
            self.alloc,
            &self.start,
            &mut self.slots,
            name,
            at as usize,
            bytes,
        ) {
            Ok(()) => Ok(()),
            Err(error) => {
                let _ = self.steps.pop();
                Err(error)
            }
        }
    }

    /// Sets the length; a missing file is made first.
    pub fn set_len(&mut self, name: FileName, n: u64) -> Result<(), AllocError>
        requires { n ≤ 2 ^ 62 }
        ensures done { OnOk result (self.new ≡ with_step self.old (SetLen name n)) }
        ensures failed { OnErr result (self.new ≡ self.old) }
    {
        self.steps.push(Step::SetLen { name, n })?;
        match resize_in(self.alloc, &self.start, &mut self.slots, name, n as usize) {
            Ok(()) => Ok(()),
            Err(error) => {
                let _ = self.steps.pop();
                Err(error)
            }
        }
    }

    /// Makes the file's bytes stable.
    pub fn sync(&mut self, name: FileName) -> Result<(), AllocError>
        ensures done { OnOk result (self.new ≡ with_step self.old (Sync name)) }
        ensures failed { OnErr result (self.new ≡ self.old) }
    {
        self.steps.push(Step::Sync { name })?;
        Ok(())
    }

    /// Makes an empty file where there is none.
    pub fn create(&mut self, name: FileName) -> Result<(), AllocError>
        ensures done { OnOk result (self.new ≡ with_step self.old (Create name)) }
        ensures failed { OnErr result (self.new ≡ self.old) }
    {
        self.steps.push(Step::Create { name })?;
        create_in(self.alloc, &self.start, &mut self.slots, name);
        Ok(())
    }

    /// Removes the file where there is one.
    pub fn remove(&mut self, name: FileName) -> Result<(), AllocError>
        ensures done { OnOk result (self.new ≡ with_step self.old (Remove name)) }
        ensures failed { OnErr result (self.new ≡ self.old) }
    {
        self.steps.push(Step::Remove { name })?;
        let _ = replace_slot(&mut self.slots, name, Slot::Missing);
        Ok(())
    }

    /// Gives the file another name, in place of what that had. A missing file changes nothing.
    pub fn rename(&mut self, from: FileName, to: FileName) -> Result<(), AllocError>
        ensures done { OnOk result (self.new ≡ with_step self.old (Rename from to)) }
        ensures failed { OnErr result (self.new ≡ self.old) }
    {
        self.steps.push(Step::Rename { from, to })?;
        rename_in(&self.start, &mut self.slots, from, to);
        Ok(())
    }

    /// Makes the names stable.
    pub fn sync_folder(&mut self) -> Result<(), AllocError>
        ensures done { OnOk result (self.new ≡ with_step self.old SyncFolder) }
        ensures failed { OnErr result (self.new ≡ self.old) }
    {
        self.steps.push(Step::SyncFolder)?;
        Ok(())
    }
}
