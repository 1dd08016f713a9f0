// The locks of an updater and readers.
ghost use Rattle.std.specs.Prelude.{◌≡◌, true, false, Some};
ghost use Rattle.lock_steps.specs.declared.locks.Bar.TheVariants.{Pending};

use lock_steps::{Bar, Holders, LockSteps, Locks, OpenRead};
use std::process::Abort;

// Begins a read, with this mark or with SHARED, where the reader may; else nothing is done.
fn begin(locks: &mut Locks, r: u32, mark: Option<u64>) -> Option<Result<(), Bar>>
    ensures { locks.new.held ≡ locks.old.held }
{
    if locks.is_full() || locks.read_of(r).is_some() {
        return None;
    }
    Some(match mark {
        Some(mark) => locks.take_mark(r, mark),
        None => locks.begin_shared(r),
    })
}

// Ends the read of a reader that holds SHARED; false where it does not.
fn end(locks: &mut Locks, r: u32) -> bool
    ensures { locks.new.held ≡ locks.old.held }
{
    if locks.read_of(r)
        != Some(OpenRead {
            reader: r,
            mark: None,
        })
    {
        return false;
    }
    locks.end_shared(r);
    true
}

// No reader begins while this bar stands.
fn check_barred(rt: &impl Abort, locks: &mut Locks, bar: Bar)
    ensures { locks.new.held ≡ locks.old.held }
{
    assert_eq!(rt; begin(locks, 3, None), Some(Err(bar)));
    assert_eq!(rt; begin(locks, 3, Some(0)), Some(Err(bar)));
}

#[test]
fn updater_waits_for_readers_of_the_file(rt: HostRuntime) {
    let mut locks = Locks::new();
    assert_eq!(rt; begin(&mut locks, 1, None), Some(Ok(())));
    assert_eq!(rt; begin(&mut locks, 2, None), Some(Ok(())));
    locks.set_pending();
    check_barred(&rt, &mut locks, Bar::Pending);
    assert_eq!(rt; locks.try_exclusive(), Err(Holders { count: 2 }));
    assert!(rt; end(&mut locks, 1));
    assert_eq!(rt; locks.try_exclusive(), Err(Holders { count: 1 }));
    assert!(rt; end(&mut locks, 2));
    assert!(rt; locks.try_exclusive().is_ok());
    check_barred(&rt, &mut locks, Bar::Exclusive);
}

#[test]
fn sixteen_reads_of_the_log_are_open(rt: HostRuntime) {
    let mut locks = Locks::new();
    for r in 0..16 {
        assert_eq!(rt; begin(&mut locks, r, Some(u64::from(r / 4))), Some(Ok(())));
    }
    assert!(rt; locks.is_full());
    assert_eq!(rt; begin(&mut locks, 16, None), None);
    assert_eq!(rt; locks.logged_open(), 12);
    assert_eq!(rt;
        locks.read_of(9),
        Some(OpenRead {
            reader: 9,
            mark: Some(2)
        })
    );
}
