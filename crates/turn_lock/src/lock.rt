// The lock.
ghost use Rattle.std.specs.Prelude.{◌≡◌, ◌≢◌, ◌+◌, ◌-◌, ◌<◌, ◌≤◌, ◌^◌, ◌++◌, ◌∷◌, [], length, Some, None, IfOk, IfErr, IfSome, IfNone, MatchOption};
ghost use mathlib.Core.List.{IsPrefix};
ghost use Rattle.turn_lock.specs.Meeting.{Meets};
ghost use Rattle.turn_lock.specs.RuleLaws.{OneHolder};
ghost use Rattle.turn_lock.specs.Steps.{guest, held_of, holder};
ghost use Rattle.turn_lock.specs.Views.{both_pasts, first_past, gave, left, lost_to, missed, new_past, noted, noted_if, told, turned_after};

use crate::plays::{Compare, Leave, Note, Open, Seats, Shut, Take, Turns};
use crate::story::Story;
use crate::view::View;
use atomic_table::Table;
use std::alloc::{AllocError, Global};
use std::sync::Wait;

/// A value that one seat has at a time. It lies in the one slot of a table of two words: the first is 1 while a seat
/// has the turn, and the second counts the history.
#[derive(Drop)]
pub struct TurnLock<W: Story> {
    table: Table<Option<W>, View<W, W::Entry>, W, Turns<W>, Global>,
    ghost sized: { (table.shared.table_id.words ≡ 2) × (table.shared.table_id.slots ≡ 1) },
}

/// The right to take the value, and what its owner knows of it. It has no bytes, and may cross threads.
pub type Seat<W> = atomic_table::Seat<Option<W>, View<W, <W as Story>::Entry>>;

impl<W: Story> TurnLock<W> {
    ghost use Rattle.turn_lock.specs.Seats.{HasTaken, HasTurn, IsSeatOf, Rests, number_of, opening_of, past_of, seen_by, taken_of, turned_of, whole_of};

    /// The lock with its value, and the first seat, whose number is 0. Where there is no memory, the value comes back.
    pub fn new(alloc: Global, value: W) -> Result<(TurnLock<W>, Seat<W>), (W, AllocError)>
        requires empty { W.history value ≡ [] }
        requires stands { W.stands value (turned_after W.Story None value) value }
        ensures own { IfOk result (λ made. IsSeatOf made.1 made.0) }
        ensures rests { IfOk result (λ made. Rests made.1) }
        ensures knows { IfOk result (λ made. past_of made.1 ≡ first_past W.Story value) }
        ensures refused { IfErr result (λ refused. refused.0 ≡ value) }
    {
        let (table, mut seat) = match Table::vacant(alloc, &[1, 0], 1, &value) {
            Ok(made) => made,
            Err(refused) => return Err((value, refused)),
        };
        table.shared.load::<Open>(&mut seat, 0);
        let before = table.shared.exchange(&mut seat, 0, Some(value));
        let None = before else { unreachable!() };
        let lock = TurnLock { table };
        lock.set_down(&mut seat);
        Ok((lock, seat))
    }

    /// One try to take the value. It is None exactly where its one compare and exchange found the turn held, which
    /// the seat counts.
    pub fn try_hold(&self, seat: &mut Seat<W>) -> Option<W>
        requires own { IsSeatOf seat.old self.now }
        requires rests { Rests seat.old }
        ensures own { IsSeatOf seat.new self.now }
        ensures takes { IfSome result (λ value. HasTaken seat.new value (W.history value)) }
        ensures value { IfSome result (Meets W.Story (past_of seat.old) (turned_of seat.new)) }
        ensures same { IfSome result (λ _. past_of seat.new ≡ told (past_of seat.old) (turned_of seat.new)) }
        ensures lost { IfNone result (past_of seat.new ≡ missed (past_of seat.old)) }
        ensures rests { IfNone result (Rests seat.new) }
    {
        let shared = &self.table.shared;
        if shared.compare_exchange::<Take<W>>(seat, 0, 0, 1) != 0 {
            return None;
        }
        shared.exchange(seat, 0, None)
    }

    /// Waits for the turn and takes the value. No clause says that it comes.
    pub fn hold<R: Wait>(&self, rt: &R, seat: &mut Seat<W>) -> W
        requires own { IsSeatOf seat.old self.now }
        requires rests { Rests seat.old }
        ensures own { IsSeatOf seat.new self.now }
        ensures takes { HasTaken seat.new result (W.history result) }
        ensures value { Meets W.Story (past_of seat.old) (turned_of seat.new) result }
        ensures same { past_of seat.new ≡ told (lost_to (past_of seat.old) (past_of seat.new).lost) (turned_of seat.new) }
        ensures lost { (past_of seat.old).lost ≤ (past_of seat.new).lost }
    {
        for _ in rt.forever() {
            match self.try_hold(seat) {
                Some(value) => return value,
                None => std::thread::yield_now(),
            }
        }
        unreachable!()
    }

    /// Puts a value back. Its history is the one that was taken, followed by the entry if there is one.
    pub fn leave(&self, seat: &mut Seat<W>, value: W, entry: Option<W::Entry>)
        requires own { IsSeatOf seat.old self.now }
        requires holds { HasTurn seat.old }
        requires history { MatchOption entry (W.history value ≡ whole_of seat.old) (λ e. W.history value ≡ whole_of seat.old ++ e ∷ []) }
        requires actor { IfSome entry (λ e. W.actor e ≡ number_of seat.old) }
        requires room { IfSome entry (λ _. length (whole_of seat.old) < 2 ^ 64 - 1) }
        requires count { IfSome (taken_of seat.old) (λ taken. W.count taken ≤ W.count value) }
        requires part { IfSome (taken_of seat.old) (λ taken. number_of seat.old ≢ 0 → W.part value ≡ W.part taken) }
        requires stands { IfSome (opening_of seat.old) (λ opening. W.stands opening (turned_after W.Story (turned_of seat.old) value) value) }
        ensures own { IsSeatOf seat.new self.now }
        ensures rests { Rests seat.new }
        ensures knows { past_of seat.new ≡ left W.Story (noted_if (past_of seat.old) (length (whole_of seat.old)) entry) (W.history value) value }
    {
        let before = self.table.shared.exchange(seat, 0, Some(value));
        let None = before else { unreachable!() };
        match entry {
            Some(entry) => {
                self.note(seat, &entry);
                self.set_down(seat);
            }
            None => self.set_down(seat),
        }
    }

    // Counts the entry with which the history of the value that is put back ends.
    fn note(&self, seat: &mut Seat<W>, _entry: &W::Entry)
        requires own { IsSeatOf seat.old self.now }
        requires held { (value : W) × (seat.old.me ≡ holder (past_of seat.old) (whole_of seat.old) (taken_of seat.old) (Some value)) × (W.history value ≡ whole_of seat.old ++ _entry.now ∷ []) }
        requires lives { opening_of seat.old ≢ None }
        requires actor { W.actor _entry.now ≡ number_of seat.old }
        requires room { length (whole_of seat.old) < 2 ^ 64 - 1 }
        ensures own { IsSeatOf seat.new self.now }
        ensures noted { IfSome (held_of seat.old.me.1) (λ value. seat.new.me ≡ holder (noted (past_of seat.old) (length (whole_of seat.old))) (W.history value) (taken_of seat.old) (Some value)) }
    {
        self.table.shared.fetch_add::<Note<W>>(seat, 1, 1);
    }

    // Gives the turn back, with the value that lies in the slot.
    fn set_down(&self, seat: &mut Seat<W>)
        requires own { IsSeatOf seat.old self.now }
        requires held { (value : W) × (seat.old.me ≡ holder (past_of seat.old) (whole_of seat.old) (taken_of seat.old) (Some value)) × (W.history value ≡ whole_of seat.old)
            × IfSome (opening_of seat.old) (λ opening. W.stands opening (turned_after W.Story (turned_of seat.old) value) value)
            × IfSome (taken_of seat.old) (λ taken. W.count taken ≤ W.count value)
            × IfSome (taken_of seat.old) (λ taken. number_of seat.old ≢ 0 → W.part value ≡ W.part taken) }
        requires lives { opening_of seat.old ≢ None }
        ensures own { IsSeatOf seat.new self.now }
        ensures rests { IfSome (held_of seat.old.me.1) (λ value. seat.new.me ≡ guest (left W.Story (past_of seat.old) (whole_of seat.old) value)) }
    {
        self.table.shared.store::<Leave<W>>(seat, 0, 0);
    }

    /// A new seat, with the next number. Only the first seat can give one.
    pub fn split(&self, seat: &mut Seat<W>) -> Seat<W>
        requires own { IsSeatOf seat.old self.now }
        requires rests { Rests seat.old }
        requires first { number_of seat.old ≡ 0 }
        ensures own { IsSeatOf seat.new self.now × IsSeatOf result self.now }
        ensures rests { Rests seat.new × Rests result }
        ensures gave { past_of seat.new ≡ gave (past_of seat.old) }
        ensures new { past_of result ≡ new_past (past_of seat.old) }
    {
        self.table.shared.split_seat::<Seats>(seat)
    }

    /// Takes another seat in, which is not the first one. What either has seen begins what the seat has seen then.
    pub fn join(&self, seat: &mut Seat<W>, other: Seat<W>)
        requires own { IsSeatOf seat.old self.now × IsSeatOf other self.now }
        requires rests { Rests seat.old × Rests other }
        requires not_first { number_of other ≢ 0 }
        ensures own { IsSeatOf seat.new self.now }
        ensures rests { Rests seat.new }
        ensures both { past_of seat.new ≡ both_pasts (past_of seat.old) (past_of other) }
        ensures seen { IsPrefix (seen_by seat.old) (seen_by seat.new) }
        ensures other_seen { IsPrefix (seen_by other) (seen_by seat.new) }
    {
        self.table.shared.join_seat::<Seats>(seat, other);
        self.table.shared.load::<Compare>(seat, 0);
    }

    /// Ends the lock. Its value is with the seat's caller.
    pub fn close(self, mut seat: Seat<W>)
        requires own { IsSeatOf seat self }
        requires holds { HasTurn seat }
    {
        let TurnLock { table } = self;
        table.shared.load::<Shut>(&mut seat, 0);
        let mut closed = table.close_with(seat);
        let home = closed.take(0);
        let None = home else { unreachable!() };
        closed.free();
    }
}

/// One seat at most has the turn: a law on the rule that holds between any two steps.
pub fn one_holder<W: Story>()
    ensures { OneHolder W.Story }
{}
