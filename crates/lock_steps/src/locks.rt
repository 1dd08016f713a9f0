// The locks, and the steps of readers.
ghost use Rattle.std.specs.Prelude.{◌≡◌, ◌<◌, ◌≤◌, ◌↔◌, ◌++◌, [], ◌∷◌, ◌==◌, true, false, length, Option, Some, None, IsSome, IsTrue, IfErr, OnOk, OnErr, IfSome, count_by};
ghost use Rattle.lock_steps.specs.declared.locks.Bar.TheVariants.{Exclusive};

use crate::steps::LockSteps;
use arrayvec::ArrayVec;
use std::marker::Model;

/// How many reads may be open at a time.
pub const SLOTS: usize = 16;

/// What keeps readers from beginning a read.
#[derive(Clone, Copy, Debug, PartialEq, Eq)]
pub enum Bar {
    /// PENDING stands.
    Pending,
    /// EXCLUSIVE stands.
    Exclusive,
}

/// Reads that hold a lock against the updater.
#[derive(Clone, Copy, Debug, PartialEq, Eq)]
pub struct Holders {
    /// How many there are, at least 1.
    pub count: u32,
}

/// An open read.
#[derive(Clone, Copy, Debug, Default, PartialEq, Eq)]
pub struct OpenRead {
    /// The number of its reader.
    pub reader: u32,
    /// The last frame of the log that the read takes pages from, or 0 for READ0; none where it holds SHARED.
    pub mark: Option<u64>,
}

impl OpenRead {
    ghost use Rattle.lock_steps.specs.Locks.{is_direct, is_logged};

    // Whether the read holds SHARED.
    fn is_direct(&self) -> bool
        ensures { result ≡ is_direct self.now }
    {
        self.mark.is_none()
    }

    // Whether the read takes pages from the log.
    fn is_logged(&self) -> bool
        ensures { result ≡ is_logged self.now }
    {
        match self.mark {
            Some(mark) => mark != 0,
            None => false,
        }
    }
}

/// The locks of one updater and of readers. They take no memory.
#[derive(Drop)]
pub struct Locks {
    bar: Option<Bar>,
    ckpt: bool,
    reads: ArrayVec<OpenRead, SLOTS>,
}

impl Model for Locks {
    ghost use Rattle.std.specs.Prelude.{◌≡◌, Some};
    ghost use Rattle.lock_steps.specs.declared.locks.Bar.TheVariants.{Exclusive};
    ghost use Rattle.lock_steps.specs.Locks.{LockState, direct_count};

    ghost Value = { LockState };

    ghost view = { λ locks. record { held = record { bar = locks.bar; ckpt = locks.ckpt }; reads = locks.reads.items } };

    ghost invariant = { λ locks. locks.bar ≡ Some Exclusive → direct_count locks.reads.items ≡ 0 };
}

impl Locks {
    ghost use Rattle.lock_steps.specs.Locks.{direct_count, logged_count, read_of, without, direct, marked};

    /// No lock is held, and no read open.
    pub fn new() -> Locks
        ensures { result ≡ record { held = record { bar = None; ckpt = false }; reads = [] } }
    {
        Locks {
            bar: None,
            ckpt: false,
            reads: ArrayVec::new(),
        }
    }

    /// What bars readers. No read holds SHARED beside EXCLUSIVE.
    pub fn bar(&self) -> Option<Bar>
        ensures bar { result ≡ self.now.held.bar }
        ensures apart { result ≡ Some Exclusive → direct_count self.now.reads ≡ 0 }
    {
        self.bar
    }

    /// Whether as many reads are open as may be.
    pub fn is_full(&self) -> bool
        ensures full { IsTrue result ↔ (length self.now.reads ≡ SLOTS) }
        ensures within { length self.now.reads ≤ SLOTS }
    {
        self.reads.is_full()
    }

    /// The open read of the reader.
    pub fn read_of(&self, r: u32) -> Option<OpenRead>
        ensures { result ≡ read_of self.now.reads r }
    {
        self.reads.iter().find(|read| read.reader == r).copied()
    }

    // How many reads hold SHARED.
    fn direct_open(&self) -> u32
        ensures { result ≡ direct_count self.now.reads }
    {
        self.reads.iter().filter(|read| read.is_direct()).count() as u32
    }

    // Begins a read where no bar stands.
    fn begin(&mut self, read: OpenRead) -> Result<(), Bar>
        requires room { length self.old.reads < SLOTS }
        ensures open { OnOk result (self.old.held.bar ≡ None) }
        ensures begun { OnOk result (self.new ≡ record self.old { reads = self.old.reads ++ read ∷ [] }) }
        ensures barred { IfErr result (λ bar. self.old.held.bar ≡ Some bar) }
        ensures same { OnErr result (self.new ≡ self.old) }
    {
        if let Some(bar) = self.bar {
            return Err(bar);
        }
        self.reads.push(read);
        Ok(())
    }

    // Ends the reads of a reader.
    fn end(&mut self, r: u32)
        ensures { self.new ≡ record self.old { reads = without r self.old.reads } }
    {
        self.reads.retain(|read| read.reader != r);
    }

    /// A reader that has no open read takes SHARED, or is told which bar stands.
    pub fn begin_shared(&mut self, r: u32) -> Result<(), Bar>
        requires room { length self.old.reads < SLOTS }
        requires closed { read_of self.old.reads r ≡ None }
        ensures open { OnOk result (self.old.held.bar ≡ None) }
        ensures begun { OnOk result (self.new ≡ record self.old { reads = self.old.reads ++ direct r ∷ [] }) }
        ensures barred { IfErr result (λ bar. self.old.held.bar ≡ Some bar) }
        ensures same { OnErr result (self.new ≡ self.old) }
    {
        self.begin(OpenRead {
            reader: r,
            mark: None,
        })
    }

    /// A reader that holds SHARED gives it back.
    pub fn end_shared(&mut self, r: u32)
        requires shared { read_of self.old.reads r ≡ Some (direct r) }
        ensures { self.new ≡ record self.old { reads = without r self.old.reads } }
    {
        self.end(r);
    }

    /// A reader that has no open read takes a mark of the log, or is told which bar stands. Mark 0 is READ0.
    pub fn take_mark(&mut self, r: u32, mark: u64) -> Result<(), Bar>
        requires room { length self.old.reads < SLOTS }
        requires closed { read_of self.old.reads r ≡ None }
        ensures open { OnOk result (self.old.held.bar ≡ None) }
        ensures begun { OnOk result (self.new ≡ record self.old { reads = self.old.reads ++ marked r mark ∷ [] }) }
        ensures barred { IfErr result (λ bar. self.old.held.bar ≡ Some bar) }
        ensures same { OnErr result (self.new ≡ self.old) }
    {
        self.begin(OpenRead {
            reader: r,
            mark: Some(mark),
        })
    }

    /// A reader that holds a mark gives it back.
    pub fn leave_mark(&mut self, r: u32)
        requires marked { IfSome (read_of self.old.reads r) (λ read. IsSome read.mark) }
        requires open { IsSome (read_of self.old.reads r) }
        ensures { self.new ≡ record self.old { reads = without r self.old.reads } }
    {
        self.end(r);
    }
}

impl LockSteps for Locks {
    ghost use Rattle.lock_steps.specs.Locks.{allowed};

    ghost held = { λ locks. locks.held };

    ghost reads = { λ locks. Some locks.reads };

    ghost allows = { λ locks. allowed locks.held };

    ghost Told = { Unit {0} };

    ghost told = { λ _. tt };

    ghost after = { λ _ _ told. told };

    ghost by_locks = { λ _ _ allows. allows };

    fn set_pending(&mut self) {
        self.bar = Some(Bar::Pending);
    }

    fn try_exclusive(&mut self) -> Result<(), Holders> {
        let count = self.direct_open();
        if count > 0 {
            return Err(Holders { count });
        }
        self.bar = Some(Bar::Exclusive);
        Ok(())
    }

    fn to_shared(&mut self) {
        self.bar = None;
    }

    fn take_ckpt(&mut self) {
        self.ckpt = true;
    }

    fn leave_ckpt(&mut self) {
        self.ckpt = false;
    }

    fn logged_open(&mut self) -> u32 {
        self.reads.iter().filter(|read| read.is_logged()).count() as u32
    }
}
