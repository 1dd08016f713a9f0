// Random lists of calls, whose images are held against the rules of a crash, kept here byte by byte.
ghost use Rattle.std.specs.Prelude.{◌<◌};

use crate::changes::{Change, make};
use crate::ensure::ensure;
use disk_memory::MemoryDisk;
use rbu_disk::FileName;
use std::alloc::{AllocError, Global};
use std::test::Fail;

// A generator of numbers, by a linear congruence.
#[derive(Drop)]
struct Random {
    state: u64,
}

impl Random {
    fn below(&mut self, end: u64) -> u64
        requires { 0 < end }
    {
        self.state = self
            .state
            .wrapping_mul(6_364_136_223_846_793_005)
            .wrapping_add(1_442_695_040_888_963_407);
        (self.state >> 33) % end
    }

    fn name(&mut self) -> FileName {
        match self.below(3) {
            0 => FileName::Target,
            1 => FileName::Oal,
            _ => FileName::Wal,
        }
    }

    // Writes and lengths are as many as all other changes.
    fn change(&mut self) -> Change {
        let name = self.name();
        let at = self.below(10);
        match self.below(12) {
            0 => Change::Create(name),
            1 => Change::Remove(name),
            2 => Change::Sync(name),
            3 => Change::SyncFolder,
            4 | 5 => Change::Rename(name, self.name()),
            6 | 7 => Change::SetLen(name, at),
            _ => Change::Write(name, at, b"ABC"),
        }
    }
}

// What each image of a file has: at a place the byte, or any byte; and its lengths.
#[derive(Drop)]
struct Allowed {
    shown: Vec<u8>,
    firm: Vec<Option<u8>>,
    least: usize,
    greatest: usize,
}

impl Allowed {
    fn empty(alloc: Global) -> Allowed {
        Allowed {
            shown: Vec::new(alloc),
            firm: Vec::new(alloc),
            least: 0,
            greatest: 0,
        }
    }

    // A file of which all is stable.
    fn stable(alloc: Global, bytes: &[u8]) -> Result<Allowed, AllocError> {
        let mut file = Allowed::empty(alloc);
        file.resize(bytes.len())?;
        file.put(0, bytes);
        file.sync()?;
        Ok(file)
    }

    // Any bytes from one place to another.
    fn forget(&mut self, from: usize, to: usize) {
        for (i, place) in self.firm.iter_mut().enumerate() {
            if i >= from && i < to {
                *place = None;
            }
        }
    }

    fn resize(&mut self, n: usize) -> Result<(), AllocError> {
        let len = self.shown.len();
        self.forget(len.min(n), len.max(n));
        self.least = self.least.min(n);
        self.greatest = self.greatest.max(n);
        self.shown.resize(n, 0)
    }

    fn put(&mut self, at: usize, bytes: &[u8]) {
        for (place, byte) in self.shown.iter_mut().skip(at).zip(bytes) {
            *place = *byte;
        }
    }

    fn write(&mut self, at: usize, bytes: &[u8]) -> Result<(), AllocError> {
        let end = at.saturating_add(bytes.len());
        if self.shown.len() < end {
            self.resize(end)?;
        }
        self.forget(at, end);
        self.put(at, bytes);
        Ok(())
    }

    fn sync(&mut self) -> Result<(), AllocError> {
        self.firm.clear();
        for byte in self.shown.as_slice() {
            self.firm.push(Some(*byte))?;
        }
        self.least = self.shown.len();
        self.greatest = self.shown.len();
        Ok(())
    }

    fn allows(&self, bytes: &[u8]) -> bool {
        if bytes.len() < self.least || bytes.len() > self.greatest {
            return false;
        }
        for (byte, place) in bytes.iter().zip(self.firm.as_slice()) {
            if let Some(firm) = place {
                if firm != byte {
                    return false;
                }
            }
        }
        true
    }
}

// The number of the file of each name.
#[derive(Clone, Copy)]
struct Names {
    target: Option<usize>,
    oal: Option<usize>,
    wal: Option<usize>,
}

impl Names {
    fn of(&self, name: FileName) -> Option<usize> {
        match name {
            FileName::Target => self.target,
            FileName::Oal => self.oal,
            _ => self.wal,
        }
    }

    fn with(self, name: FileName, number: Option<usize>) -> Names {
        let mut names = self;
        match name {
            FileName::Target => names.target = number,
            FileName::Oal => names.oal = number,
            _ => names.wal = number,
        }
        names
    }
}

// The files by number, the names now, and those before each change since the folder was synced.
#[derive(Drop)]
struct Rules {
    files: Vec<Allowed>,
    now: Names,
    before: Vec<Names>,
}

impl Rules {
    fn rename_to(&mut self, names: Names) -> Result<(), AllocError> {
        self.before.push(self.now)?;
        self.now = names;
        Ok(())
    }

    // Makes an empty file where the name has none.
    fn create(&mut self, alloc: Global, name: FileName) -> Result<(), AllocError> {
        if self.now.of(name).is_none() {
            let number = self.files.len();
            self.files.push(Allowed::empty(alloc))?;
            let names = self.now.with(name, Some(number));
            self.rename_to(names)?;
        }
        Ok(())
    }

    fn remove(&mut self, name: FileName) -> Result<(), AllocError> {
        if self.now.of(name).is_some() {
            let names = self.now.with(name, None);
            self.rename_to(names)?;
        }
        Ok(())
    }

    fn rename(&mut self, from: FileName, to: FileName) -> Result<(), AllocError> {
        let number = self.now.of(from);
        if number.is_some() {
            let names = self.now.with(from, None).with(to, number);
            self.rename_to(names)?;
        }
        Ok(())
    }

    // The file of a name.
    fn file(&mut self, name: FileName) -> Option<&mut Allowed> {
        self.files.get_mut(self.now.of(name)?)
    }

    fn write(&mut self, name: FileName, at: usize, bytes: &[u8]) -> Result<(), AllocError> {
        match self.file(name) {
            Some(file) => file.write(at, bytes),
            None => Ok(()),
        }
    }

    fn set_len(&mut self, name: FileName, n: usize) -> Result<(), AllocError> {
        match self.file(name) {
            Some(file) => file.resize(n),
            None => Ok(()),
        }
    }

    fn sync(&mut self, name: FileName) -> Result<(), AllocError> {
        match self.file(name) {
            Some(file) => file.sync(),
            None => Ok(()),
        }
    }

    // Makes a call; a write and a length make a missing file first.
    fn apply(&mut self, alloc: Global, change: Change) -> Result<(), AllocError> {
        match change {
            Change::Write(name, at, bytes) => {
                self.create(alloc, name)?;
                self.write(name, at as usize, bytes)
            }
            Change::SetLen(name, n) => {
                self.create(alloc, name)?;
                self.set_len(name, n as usize)
            }
            Change::Sync(name) => self.sync(name),
            Change::Create(name) => self.create(alloc, name),
            Change::Remove(name) => self.remove(name),
            Change::Rename(from, to) => self.rename(from, to),
            Change::SyncFolder => {
                self.before.clear();
                Ok(())
            }
        }
    }

    fn allows_name(&self, names: &Names, name: FileName, file: Option<&[u8]>) -> bool {
        match (names.of(name), file) {
            (Some(number), Some(bytes)) => match self.files.get(number) {
                Some(allowed) => allowed.allows(bytes),
                None => false,
            },
            (None, None) => true,
            _ => false,
        }
    }

    fn allows_names(&self, names: &Names, disk: &MemoryDisk) -> bool {
        self.allows_name(names, FileName::Target, disk.contents(FileName::Target))
            && self.allows_name(names, FileName::Oal, disk.contents(FileName::Oal))
            && self.allows_name(names, FileName::Wal, disk.contents(FileName::Wal))
    }

    fn allows(&self, disk: &MemoryDisk) -> bool {
        for names in self.before.as_slice() {
            if self.allows_names(names, disk) {
                return true;
            }
        }
        self.allows_names(&self.now, disk)
    }
}

// The target is 'abcdef', and stable; neither log exists.
fn first_rules(alloc: Global) -> Result<Rules, AllocError> {
    let mut files = Vec::new(alloc);
    files.push(Allowed::stable(alloc, b"abcdef")?)?;
    let now = Names {
        target: Some(0),
        oal: None,
        wal: None,
    };
    Ok(Rules {
        files,
        now,
        before: Vec::new(alloc),
    })
}

fn first_disk(alloc: Global) -> Result<MemoryDisk, AllocError> {
    let mut files = Vec::new(alloc);
    files.push((FileName::Target, Vec::from_slice(alloc, b"abcdef")?))?;
    Ok(MemoryDisk::new(alloc, files, Vec::new(alloc)))
}

fn change_both(
    alloc: Global,
    random: &mut Random,
    disk: &mut MemoryDisk,
    rules: &mut Rules,
) -> Result<(), Fail> {
    let change = random.change();
    make(disk, change)?;
    rules.apply(alloc, change)?;
    Ok(())
}

fn are_allowed(alloc: Global, disk: &MemoryDisk, rules: &Rules) -> Result<bool, AllocError> {
    for choice in 0..9 {
        if !rules.allows(&disk.crash(alloc, choice)?) {
            return Ok(false);
        }
    }
    Ok(true)
}

fn images_are_allowed(
    alloc: Global,
    random: &mut Random,
    disk: &mut MemoryDisk,
    rules: &mut Rules,
) -> Result<(), Fail> {
    for _ in 0..10 {
        change_both(alloc, random, disk, rules)?;
    }
    ensure(
        are_allowed(alloc, disk, rules)?,
        "an image that the rules do not allow",
    )
}

fn disk_keeps_the_rules(
    alloc: Global,
    random: &mut Random,
    disk: &mut MemoryDisk,
) -> Result<(), Fail> {
    let mut rules = first_rules(alloc)?;
    images_are_allowed(alloc, random, disk, &mut rules)
}

fn list_keeps_the_rules(alloc: Global, random: &mut Random) -> Result<(), Fail> {
    let mut disk = first_disk(alloc)?;
    disk_keeps_the_rules(alloc, random, &mut disk)
}

#[test]
fn images_of_random_lists_of_calls_are_allowed(rt: HostRuntime) -> Result<(), Fail> {
    let mut random = Random { state: 1 };
    for _ in 0..1000 {
        list_keeps_the_rules(rt.alloc(), &mut random)?;
    }
    Ok(())
}
