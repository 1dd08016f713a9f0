// The steps of the updater on the locks.
ghost use Rattle.std.specs.Prelude.{◌≡◌, ◌<◌, ℕ, Bool, true, false, Option, Some, List, None, OnOk, OnErr, IfErr, IfSome, IsTrue};
ghost use Rattle.lock_steps.specs.declared.locks.OpenRead.{OpenRead};
ghost use Rattle.lock_steps.specs.declared.locks.Bar.TheVariants.{Pending, Exclusive};
ghost use Rattle.lock_steps.specs.Locks.{Held, Step, allowed, direct_count, logged_count, named};
ghost use Rattle.lock_steps.specs.Locks.Step.{SetPending, TryExclusive, ToShared, TakeCkpt, LeaveCkpt, CountLogged};

use crate::locks::Holders;

/// The steps of the updater on the locks.
///
/// `held` has the updater's own locks, `reads` the open reads where the value knows them: a value that shares the locks
/// with threads of readers does not. `allows` says which steps may be made now.
///
/// A value may be more than its locks, as a disk. `told` is what it says of that, and `after` what a step that answers this
/// count makes of it, which is 0 for a step that answers none. A caller that needs more of the value than its locks, as that
/// files stay, takes as a condition what `told` and `after` say of it.
pub trait LockSteps {
    ghost held: { Self → Held };

    ghost reads: { Self → Option (List OpenRead) };

    ghost allows: { Self → Step → Bool };

    ghost Told: { Type 0 };

    ghost told: { Self → Told };

    ghost after: { Step → ℕ → Told → Told };

    /// Takes PENDING: from now on no read begins.
    fn set_pending(&mut self)
        requires allowed { IsTrue (allows self.old SetPending) }
        ensures held { held self.new ≡ record (held self.old) { bar = Some Pending } }
        ensures reads { reads self.new ≡ reads self.old }
        ensures next { IsTrue (allows self.new TryExclusive) }
        ensures told { told self.new ≡ after SetPending 0 (told self.old) };

    /// Takes EXCLUSIVE in place of PENDING where no read holds SHARED; else all stays, and the answer is how many do.
    fn try_exclusive(&mut self) -> Result<(), Holders>
        requires allowed { IsTrue (allows self.old TryExclusive) }
        ensures taken { OnOk result (held self.new ≡ record (held self.old) { bar = Some Exclusive }) }
        ensures holders { IfSome (reads self.old) (λ known. named result ≡ direct_count known) }
        ensures some { IfErr result (λ holders. 0 < holders.count) }
        ensures kept { OnErr result (held self.new ≡ held self.old) }
        ensures again { OnErr result (IsTrue (allows self.new TryExclusive)) }
        ensures reads { reads self.new ≡ reads self.old }
        ensures told { told self.new ≡ after TryExclusive (named result) (told self.old) };

    /// Gives EXCLUSIVE back, and opens to readers.
    fn to_shared(&mut self)
        requires allowed { IsTrue (allows self.old ToShared) }
        ensures held { held self.new ≡ record (held self.old) { bar = None } }
        ensures reads { reads self.new ≡ reads self.old }
        ensures told { told self.new ≡ after ToShared 0 (told self.old) };

    /// Takes CKPT.
    fn take_ckpt(&mut self)
        requires allowed { IsTrue (allows self.old TakeCkpt) }
        ensures held { held self.new ≡ record (held self.old) { ckpt = true } }
        ensures reads { reads self.new ≡ reads self.old }
        ensures next { IsTrue (allows self.new LeaveCkpt) }
        ensures told { told self.new ≡ after TakeCkpt 0 (told self.old) };

    /// Gives CKPT back.
    fn leave_ckpt(&mut self)
        requires allowed { IsTrue (allows self.old LeaveCkpt) }
        ensures held { held self.new ≡ record (held self.old) { ckpt = false } }
        ensures reads { reads self.new ≡ reads self.old }
        ensures next { IsTrue (allows self.new TakeCkpt) }
        ensures told { told self.new ≡ after LeaveCkpt 0 (told self.old) };

    /// How many reads take pages from the log.
    fn logged_open(&mut self) -> u32
        requires allowed { IsTrue (allows self.old CountLogged) }
        ensures count { IfSome (reads self.old) (λ known. result ≡ logged_count known) }
        ensures held { held self.new ≡ held self.old }
        ensures reads { reads self.new ≡ reads self.old }
        ensures told { told self.new ≡ after CountLogged result (told self.old) };

    // What is allowed is allowed by the locks.
    ghost by_locks: { (x : Self) (step : Step) → IsTrue (allows x step) → IsTrue (allowed (held x) step) };
}
