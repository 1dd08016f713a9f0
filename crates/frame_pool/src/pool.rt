// The pool.
ghost use Rattle.std.specs.Prelude.{◌≡◌, ◌+◌, ◌-◌, ◌*◌, ◌<◌, ◌≤◌, ◌∷◌, [], ℕ, List, Some, None, IfSome, IfNone, IfOk, vec_len, true};
ghost use Rattle.std.specs.List.{All};
ghost use Rattle.atomic_table.specs.Table.{State};
ghost use Rattle.frame_pool.specs.Claims.{Has, HasAll, is_once, without};
ghost use Rattle.frame_pool.specs.Frames.{first_size, number_of, size_of};
ghost use Rattle.frame_pool.specs.Rule.{Kept, Slot};
ghost use Rattle.frame_pool.specs.RuleLaws.{LentOnce};
ghost use Rattle.frame_pool.specs.Tries.{Loses, TriesOne, Wins};
ghost use Rattle.frame_pool.specs.Views.{view};

use crate::frame::Frame;
use crate::plays::{Claim, Lending, Part, Release, Reopen, Settle};
use crate::view::View;
use atomic_table::{Seat, Table};
use std::alloc::{AllocError, Global};

/// Frames that seats claim and release.
#[derive(Drop)]
pub struct Pool {
    table: Table<Option<Frame>, View, usize, Lending, Global>,
    ghost covered: { (0 < table.shared.table_id.words) × (table.shared.table_id.slots ≤ table.shared.table_id.words * 64) },
}

/// The right to claim frames, and to release those that were claimed with it. It has no bytes, and may cross threads.
#[derive(Drop)]
pub struct PoolSeat {
    seat: Seat<Option<Frame>, View>,
    ghost rests: { seat.me ≡ (view seat.me.0.size seat.me.0.parts seat.me.0.claimed None seat.me.0.tries, []) },
    ghost lives: { 0 < seat.me.0.parts },
    ghost once: { is_once seat.me.0.claimed ≡ true },
}

impl Pool {
    ghost use Rattle.frame_pool.specs.Seats.{AreUnclaimed, IsOnlySeat, IsSeatOf, Remains, SameSeat, claims_of, frame_count, frame_size, parts_of, tries_of};

    /// A pool of 1 to 4096 frames, all of one length, and its first seat. The frames get their numbers here, from 0 on.
    pub fn new(alloc: Global, frames: Vec<Frame>) -> Result<(Pool, PoolSeat), AllocError>
        requires some { 0 < vec_len frames }
        requires limit { vec_len frames ≤ 4096 }
        requires sizes { All (λ frame. size_of frame ≡ first_size frames.items) frames.items }
        ensures own { IfOk result (λ made. IsSeatOf made.1 made.0) }
        ensures count { IfOk result (λ made. frame_count made.0 ≡ vec_len frames) }
        ensures size { IfOk result (λ made. frame_size made.1 ≡ first_size frames.items) }
        ensures only { IfOk result (λ made. IsOnlySeat made.1) }
        ensures empty { IfOk result (λ made. claims_of made.1 ≡ []) }
        ensures tries { IfOk result (λ made. tries_of made.1 ≡ []) }
    {
        let size = frames[0].bytes.len();
        let words = vec![in alloc; 0u64; frames.len() / 64 + 1]?;
        let mut slots = Vec::new(alloc);
        for mut frame in frames {
            frame.number = slots.len();
            slots.push(Some(frame))?;
        }
        match Table::new(alloc, words.as_slice(), slots, &size) {
            Ok((table, seat)) => Ok((Pool { table }, PoolSeat { seat })),
            Err(_) => Err(AllocError),
        }
    }

    // One try at one frame.
    fn try_claim(&self, seat: &mut PoolSeat, number: usize) -> Option<Frame>
        requires own { IsSeatOf seat.old self.now }
        requires within { number < frame_count self.now }
        ensures own { IsSeatOf seat.new self.now }
        ensures size { frame_size seat.new ≡ frame_size seat.old }
        ensures parts { parts_of seat.new ≡ parts_of seat.old }
        ensures frame { IfSome result (λ frame. (number_of frame ≡ number) × (size_of frame ≡ frame_size seat.old)) }
        ensures claims { IfSome result (λ _. claims_of seat.new ≡ number ∷ claims_of seat.old) }
        ensures free { IfSome result (λ _. Has (claims_of seat.old) number → ⊥) }
        ensures won { IfSome result (λ _. TriesOne (tries_of seat.old) (tries_of seat.new) number 0) }
        ensures same { IfNone result (claims_of seat.new ≡ claims_of seat.old) }
        ensures lost { IfNone result (TriesOne (tries_of seat.old) (tries_of seat.new) number 1) }
        ensures only { IfNone result (IsOnlySeat seat.old → Has (claims_of seat.old) number) }
    {
        let shared = &self.table.shared;
        let place = number % 64;
        let found = shared.fetch_or::<Claim>(&mut seat.seat, number / 64, 1 << place);
        if (found >> place) & 1 != 0 {
            return None;
        }
        let frame = shared.exchange(&mut seat.seat, number, None);
        // An exchange reaches only the slot that was taken last, so the seat keeps none.
        shared.load::<Settle>(&mut seat.seat, 0);
        frame
    }

    /// Tries each frame's bit once, in order, and claims the first whose bit does not stand. It is None exactly where
    /// each bit stood at the step that tried it; for the only seat, where it has claimed all frames.
    pub fn claim(&self, seat: &mut PoolSeat) -> Option<Frame>
        requires own { IsSeatOf seat.old self.now }
        ensures own { IsSeatOf seat.new self.now }
        ensures size { frame_size seat.new ≡ frame_size seat.old }
        ensures parts { parts_of seat.new ≡ parts_of seat.old }
        ensures frame { IfSome result (λ frame. (number_of frame < frame_count self.now) × (size_of frame ≡ frame_size seat.old)) }
        ensures claims { IfSome result (λ frame. claims_of seat.new ≡ number_of frame ∷ claims_of seat.old) }
        ensures free { IfSome result (λ frame. Has (claims_of seat.old) (number_of frame) → ⊥) }
        ensures won { IfSome result (λ frame. Wins (tries_of seat.old) (tries_of seat.new) (number_of frame)) }
        ensures same { IfNone result (claims_of seat.new ≡ claims_of seat.old) }
        ensures lost { IfNone result (Loses (tries_of seat.old) (tries_of seat.new) (frame_count self.now)) }
        ensures only { IfNone result (IsOnlySeat seat.old → HasAll (claims_of seat.old) (frame_count self.now)) }
    {
        for number in 0..self.table.slot_count() {
            if let Some(frame) = self.try_claim(seat, number) {
                return Some(frame);
            }
        }
        None
    }

    /// Gives a claimed frame back.
    pub fn release(&self, seat: &mut PoolSeat, frame: Frame)
        requires own { IsSeatOf seat.old self.now }
        requires claimed { Has (claims_of seat.old) (number_of frame) }
        requires size { size_of frame ≡ frame_size seat.old }
        ensures own { IsSeatOf seat.new self.now }
        ensures size { frame_size seat.new ≡ frame_size seat.old }
        ensures parts { parts_of seat.new ≡ parts_of seat.old }
        ensures tries { tries_of seat.new ≡ tries_of seat.old }
        ensures gone { claims_of seat.new ≡ without (number_of frame) (claims_of seat.old) }
        ensures last { (rest : List ℕ) → claims_of seat.old ≡ number_of frame ∷ rest → claims_of seat.new ≡ rest }
    {
        let shared = &self.table.shared;
        let number = frame.number;
        // It changes no word. It takes the empty slot again, and its operands say which.
        shared.compare_exchange::<Reopen>(&mut seat.seat, 0, number as u64, number as u64);
        drop(shared.exchange(&mut seat.seat, number, Some(frame)));
        shared.fetch_and::<Release>(&mut seat.seat, number / 64, !(1 << (number % 64)));
    }

    /// A second seat, with no frame. It gets one part of the first, which needs two at least.
    pub fn split(&self, seat: &mut PoolSeat) -> PoolSeat
        requires own { IsSeatOf seat.old self.now }
        requires parts { 1 < parts_of seat.old }
        ensures own { IsSeatOf seat.new self.now × IsSeatOf result self.now }
        ensures same { SameSeat seat.new seat.old }
        ensures parts { (parts_of seat.new ≡ parts_of seat.old - 1) × (parts_of result ≡ 1) }
        ensures size { frame_size result ≡ frame_size seat.old }
        ensures empty { claims_of result ≡ [] }
        ensures tries { tries_of result ≡ [] }
    {
        PoolSeat {
            seat: self.table.shared.split_seat::<Part>(&mut seat.seat),
        }
    }

    /// Ends a seat that has no frame, and gives its parts to the other.
    pub fn join(&self, seat: &mut PoolSeat, other: PoolSeat)
        requires own { IsSeatOf seat.old self.now × IsSeatOf other self.now }
        requires empty { claims_of other ≡ [] }
        ensures own { IsSeatOf seat.new self.now }
        ensures same { SameSeat seat.new seat.old }
        ensures parts { parts_of seat.new ≡ parts_of seat.old + parts_of other }
    {
        let PoolSeat { seat: other } = other;
        self.table.shared.join_seat::<Part>(&mut seat.seat, other);
    }

    /// Ends the pool, and gives the frames whose bit does not stand, in order of their numbers. With the only seat these
    /// are all that it has not claimed.
    pub fn close(self, alloc: Global, seat: PoolSeat) -> Result<Vec<Frame>, AllocError>
        requires own { IsSeatOf seat self }
        ensures frames { IfOk result (λ frames. Remains self seat frames.items) }
        ensures only { IfOk result (λ frames. IsOnlySeat seat → AreUnclaimed self seat frames.items) }
        ensures all { IfOk result (λ frames. IsOnlySeat seat → claims_of seat ≡ [] → vec_len frames ≡ frame_count self) }
    {
        let Pool { table } = self;
        let PoolSeat { seat } = seat;
        let mut frames = Vec::with_capacity(alloc, table.slot_count())?;
        let mut closed = table.close_with(seat);
        for number in 0..closed.slot_count() {
            let home = closed.take(number);
            if (closed.word(number / 64) >> (number % 64)) & 1 == 0 {
                let Some(frame) = home else { unreachable!() };
                let Ok(()) = frames.push(frame) else {
                    unreachable!()
                };
            }
        }
        closed.free();
        Ok(frames)
    }
}

/// No frame is lent twice: a law on the rule that holds between any two steps.
pub fn lent_once()
    ensures { (size : ℕ) (s : State Slot View) → Kept size s → LentOnce size s }
{}
