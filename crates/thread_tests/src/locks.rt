// One seat at a time, and two threads that write into one history.
ghost use Rattle.std.specs.Prelude.{◌≡◌, ◌≤◌, ℕ, nat_le, IfSome};
ghost use Rattle.turn_lock.specs.Seats.{IsSeatOf, Rests, number_of};

use std::sync::Wait;
use std::test::*;
use std::thread::join;
use turn_lock::{Seat, Story, TurnLock};

// What a seat wrote, by its number.
#[derive(Clone, Copy, Drop)]
struct Line {
    by: u64,
    nth: u32,
}

// It turns at its thousandth hold. The title is the first seat's.
#[derive(Drop)]
struct Diary {
    title: u32,
    lines: Vec<Line>,
    holds: u64,
}

impl Story for Diary {
    type Entry = Line;

    ghost history = { λ d. d.lines.items };

    ghost count = { λ d. d.holds };

    ghost actor = { λ line. line.by };

    ghost Part = { ℕ };

    ghost part = { λ d. d.title };

    ghost has_turned = { λ d. nat_le 1000 d.holds };

    ghost stands = { λ opening turned d. (opening.holds ≤ d.holds) × IfSome turned (λ first. first.holds ≤ d.holds) };
}

// Puts back what it takes, whatever that is.
fn look<R: Wait, W: Story>(rt: &R, lock: &TurnLock<W>, seat: &mut Seat<W>)
    requires own { IsSeatOf seat.old lock.now }
    requires rests { Rests seat.old }
    ensures own { IsSeatOf seat.new lock.now }
    ensures rests { Rests seat.new }
    ensures number { number_of seat.new ≡ number_of seat.old }
{
    let value = lock.hold(rt, seat);
    lock.leave(seat, value, None);
}

fn write_line<R: Wait>(rt: &R, lock: &TurnLock<Diary>, seat: &mut Seat<Diary>, by: u64, nth: u32)
    requires own { IsSeatOf seat.old lock.now }
    requires rests { Rests seat.old }
    requires number { number_of seat.old ≡ by }
    ensures own { IsSeatOf seat.new lock.now }
    ensures rests { Rests seat.new }
    ensures number { number_of seat.new ≡ by }
{
    let mut diary = lock.hold(rt, seat);
    diary.holds = diary.holds.saturating_add(1);
    let line = Line { by, nth };
    match diary.lines.push(line) {
        Ok(()) => lock.leave(seat, diary, Some(line)),
        Err(_) => lock.leave(seat, diary, None),
    }
}

fn write_lines<R: Wait>(
    rt: &R,
    lock: &TurnLock<Diary>,
    mut seat: Seat<Diary>,
    by: u64,
) -> Seat<Diary>
    requires own { IsSeatOf seat lock.now }
    requires rests { Rests seat }
    requires number { number_of seat ≡ by }
    ensures own { IsSeatOf result lock.now }
    ensures rests { Rests result }
    ensures number { number_of result ≡ by }
{
    for nth in 0..1000 {
        write_line(rt, lock, &mut seat, by, nth);
    }
    seat
}

#[test]
fn second_seat_waits_until_the_first_leaves(rt: HostRuntime) -> Result<(), Fail> {
    let diary = Diary {
        title: 7,
        lines: Vec::new(rt.alloc()),
        holds: 0,
    };
    let (lock, mut first) = TurnLock::new(rt.alloc(), diary).ok().expect(&rt, "memory");
    let mut second = lock.split(&mut first);
    let diary = lock.try_hold(&mut first).expect(&rt, "the turn is free");
    assert!(rt; lock.try_hold(&mut second).is_none());
    lock.leave(&mut first, diary, None);
    look(&rt, &lock, &mut second);
    let diary = lock
        .try_hold(&mut second)
        .expect(&rt, "the turn is free again");
    assert_eq!(rt; diary.title, 7);
    lock.close(second);
    Ok(())
}

#[test]
fn two_threads_write_a_thousand_lines_each(rt: HostRuntime) -> Result<(), Fail> {
    let diary = Diary {
        title: 0,
        lines: Vec::new(rt.alloc()),
        holds: 0,
    };
    let (lock, mut first) = TurnLock::new(rt.alloc(), diary).ok().expect(&rt, "memory");
    let lock = &lock;
    let mut diary = lock.hold(&rt, &mut first);
    diary.title = 5;
    lock.leave(&mut first, diary, None);
    let one = lock.split(&mut first);
    let two = lock.split(&mut first);
    let (one, two) = join(
        &rt,
        move || -> Seat<Diary>
            requires { IsSeatOf one lock.now × Rests one × (number_of one ≡ 1) }
            ensures { IsSeatOf result lock.entry.now × Rests result × (number_of result ≡ 1) }
        { write_lines(&rt, lock, one, 1) },
        move || -> Seat<Diary>
            requires { IsSeatOf two lock.now × Rests two × (number_of two ≡ 2) }
            ensures { IsSeatOf result lock.entry.now × Rests result × (number_of result ≡ 2) }
        { write_lines(&rt, lock, two, 2) },
    );
    lock.join(&mut first, one);
    lock.join(&mut first, two);
    let diary = lock.hold(&rt, &mut first);
    assert_eq!(rt;
        (diary.title, diary.holds, diary.lines.len()),
        (5, 2000, 2000)
    );
    for by in [1, 2] {
        let mut next = 0u32;
        for line in diary.lines.as_slice() {
            if line.by == by {
                assert_eq!(rt; line.nth, next, "seat {by}");
                next = next.saturating_add(1);
            }
        }
        assert_eq!(rt; next, 1000);
    }
    Ok(())
}
