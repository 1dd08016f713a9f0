// Frames that are claimed by one seat, by two in turn, and by four threads.
ghost use Rattle.std.specs.Prelude.{◌≡◌, ◌≤◌, []};
ghost use Rattle.frame_pool.specs.Seats.{IsSeatOf, claims_of, frame_size, parts_of};

use frame_pool::{Frame, Pool, PoolSeat};
use std::test::*;
use std::thread::{Threads, join};

// Claims up to so many frames with two seats in turn, marks each, and gives all back. It counts those that no other
// claim had marked.
fn claim_in_turn(pool: &Pool, one: &mut PoolSeat, two: &mut PoolSeat, limit: u32) -> u32
    requires own { IsSeatOf one.old pool.now × IsSeatOf two.old pool.now }
    ensures own { IsSeatOf one.new pool.now × IsSeatOf two.new pool.now }
    ensures claims { (claims_of one.new ≡ claims_of one.old) × (claims_of two.new ≡ claims_of two.old) }
    ensures sizes { (frame_size one.new ≡ frame_size one.old) × (frame_size two.new ≡ frame_size two.old) }
    ensures within { result ≤ limit }
{
    if limit == 0 {
        return 0;
    }
    let Some(mut frame) = pool.claim(one) else {
        return 0;
    };
    let unmarked = frame.bytes().first().copied() == Some(0);
    frame.bytes().fill(1);
    let others = claim_in_turn(pool, two, one, limit - 1);
    pool.release(one, frame);
    if unmarked { others + 1 } else { others }
}

// Claims and releases a thousand times. It counts the frames in which another mark came to stand.
fn use_often(pool: &Pool, mut seat: PoolSeat, mark: u8) -> (PoolSeat, u32)
    requires own { IsSeatOf seat pool.now }
    requires empty { claims_of seat ≡ [] }
    ensures own { IsSeatOf result.0 pool.now }
    ensures empty { claims_of result.0 ≡ [] }
    ensures parts { parts_of result.0 ≡ parts_of seat }
{
    let mut clashes = 0u32;
    for _ in 0..1000 {
        if let Some(mut frame) = pool.claim(&mut seat) {
            frame.bytes().fill(mark);
            if frame.bytes().last().copied() != Some(mark) {
                clashes = clashes.saturating_add(1);
            }
            pool.release(&mut seat, frame);
        }
    }
    (seat, clashes)
}

// Two threads do, with two marks. The second seat ends in the first.
fn use_both<R: Threads + Sync>(
    rt: &R,
    pool: &Pool,
    one: PoolSeat,
    two: PoolSeat,
    mark: u8,
) -> (PoolSeat, u32)
    requires one { IsSeatOf one pool.now × (claims_of one ≡ []) }
    requires two { IsSeatOf two pool.now × (claims_of two ≡ []) }
    ensures own { IsSeatOf result.0 pool.now }
    ensures empty { claims_of result.0 ≡ [] }
{
    let ((mut one, some), (two, more)) = join(
        rt,
        move || -> (PoolSeat, u32)
            requires { IsSeatOf one pool.now × (claims_of one ≡ []) }
            ensures { IsSeatOf result.0 pool.entry.now × (claims_of result.0 ≡ []) }
        { use_often(pool, one, mark) },
        move || -> (PoolSeat, u32)
            requires { IsSeatOf two pool.now × (claims_of two ≡ []) }
            ensures { IsSeatOf result.0 pool.entry.now × (claims_of result.0 ≡ []) }
        { use_often(pool, two, mark ^ 1) },
    );
    pool.join(&mut one, two);
    (one, some.saturating_add(more))
}

#[test]
fn pool_of_three_gives_three_claims(rt: HostRuntime) -> Result<(), Fail> {
    let alloc = rt.alloc();
    let (pool, mut seat) = Pool::new(alloc, Frame::several(alloc, 3, 16)?)?;
    let first = pool.claim(&mut seat);
    let second = pool.claim(&mut seat);
    let third = pool.claim(&mut seat);
    let none = pool.claim(&mut seat);
    assert!(rt; first.is_some() && second.is_some() && third.is_some() && none.is_none());
    if let Some(frame) = second {
        pool.release(&mut seat, frame);
    }
    assert!(rt; pool.claim(&mut seat).is_some());
    let left = pool.close(alloc, seat)?;
    assert_eq!(rt; left.len(), 0);
    Ok(())
}

#[test]
fn two_seats_claim_each_frame_once(rt: HostRuntime) -> Result<(), Fail> {
    let alloc = rt.alloc();
    let (pool, mut one) = Pool::new(alloc, Frame::several(alloc, 65, 8)?)?;
    let mut two = pool.split(&mut one);
    assert_eq!(rt; claim_in_turn(&pool, &mut one, &mut two, 100), 65);
    pool.join(&mut one, two);
    let mut left = pool.close(alloc, one)?;
    assert_eq!(rt; left.len(), 65);
    for frame in left.iter_mut() {
        assert_eq!(rt; frame.bytes().last().copied(), Some(1));
    }
    Ok(())
}

#[test]
fn four_threads_see_no_frame_at_once(rt: HostRuntime) -> Result<(), Fail> {
    let alloc = rt.alloc();
    let (pool, mut one) = Pool::new(alloc, Frame::several(alloc, 3, 64)?)?;
    let two = pool.split(&mut one);
    let three = pool.split(&mut one);
    let four = pool.split(&mut one);
    let shared = &pool;
    let ((mut one, some), (two, more)) = join(
        &rt,
        move || -> (PoolSeat, u32)
            requires { IsSeatOf one shared.now × (claims_of one ≡ []) × IsSeatOf two shared.now × (claims_of two ≡ []) }
            ensures { IsSeatOf result.0 shared.entry.now × (claims_of result.0 ≡ []) }
        { use_both(&rt, shared, one, two, 2) },
        move || -> (PoolSeat, u32)
            requires { IsSeatOf three shared.now × (claims_of three ≡ []) × IsSeatOf four shared.now × (claims_of four ≡ []) }
            ensures { IsSeatOf result.0 shared.entry.now × (claims_of result.0 ≡ []) }
        { use_both(&rt, shared, three, four, 4) },
    );
    pool.join(&mut one, two);
    assert_eq!(rt; (some, more), (0, 0));
    assert_eq!(rt; pool.close(alloc, one)?.len(), 3);
    Ok(())
}
