// The loop.
ghost use Rattle.std.specs.Prelude.{◌≡◌, ◌↔◌, ◌⊎◌, ◌<◌, ◌≤◌, ◌+◌, false, true};
ghost use Rattle.std.specs.Bool.{OnTrue, OnFalse};
ghost use Rattle.reader_threads.specs.Tallies.{CanBegin, CanStep, after_begin, after_reads, after_step, stopped};
ghost use Rattle.reader_threads.specs.declared.turns.Begun;
ghost use Rattle.reader_threads.specs.declared.turns.Stepped;

use crate::gate::{Gate, Point};
use crate::turns::{Begun, ReadTurns, Stepped};
use std::sync::Wait;

// Tries until a read is open. It is false where Stop was answered.
fn begin_read<R: Wait, T: ReadTurns>(rt: &R, turns: &mut T) -> bool
    requires ready { CanBegin (T.tally turns.old) }
    ensures begun { OnTrue result (T.tally turns.new ≡ after_begin Begun.Yes (T.tally turns.old)) }
    ensures stopped { OnFalse result (T.tally turns.new ≡ stopped (T.tally turns.old)) }
    ensures outside { T.has_turn turns.new ≡ false }
{
    for _ in rt.forever() {
        match turns.begin() {
            Begun::Yes => return true,
            Begun::NotYet => std::thread::yield_now(),
            Begun::Stop => return false,
        }
    }
    unreachable!()
}

// Goes on until the open read has ended. It is false where Stop was answered.
fn end_read<R: Wait, T: ReadTurns>(rt: &R, turns: &mut T) -> bool
    requires open { CanStep (T.tally turns.old) }
    ensures ended { OnTrue result (T.tally turns.new ≡ after_step Stepped.Ended (T.tally turns.old)) }
    ensures stopped { OnFalse result (T.tally turns.new ≡ stopped (T.tally turns.old)) }
    ensures outside { T.has_turn turns.new ≡ false }
{
    for _ in rt.forever() {
        match turns.step() {
            Stepped::More => {}
            Stepped::Ended => return true,
            Stepped::Stop => return false,
        }
    }
    unreachable!()
}

// Tells the gate, while the reader does not have the turn.
fn tell<T: ReadTurns, G: Gate>(_turns: &T, gate: &G, reader: u32, point: Point)
    requires outside { T.has_turn _turns.now ≡ false }
{
    gate.reached(reader, point);
}

/// Makes so many reads, each begun and ended once, or fewer where Stop was answered, and answers how many ended. Where
/// no read can be opened yet it tries again. The gate is told of each read that was begun and that has ended.
pub fn run_reader<R: Wait, T: ReadTurns, G: Gate>(
    rt: &R,
    turns: &mut T,
    gate: &G,
    reader: u32,
    reads: u32,
) -> u32
    requires ready { CanBegin (T.tally turns.old) }
    ensures ended { (T.tally turns.new).ended ≡ (T.tally turns.old).ended + result }
    ensures all { (T.tally turns.new).is_stopped ≡ false → T.tally turns.new ≡ after_reads reads (T.tally turns.old) }
    ensures fewer { (result < reads) ↔ ((T.tally turns.new).is_stopped ≡ true) }
    ensures within { result ≤ reads }
    ensures begun { ((T.tally turns.new).begun ≡ (T.tally turns.old).begun + result) ⊎ ((T.tally turns.new).begun ≡ (T.tally turns.old).begun + result + 1) }
    ensures closed { (T.tally turns.new).is_open ≡ false }
{
    for ended in 0..reads {
        if !begin_read(rt, turns) {
            return ended;
        }
        tell(turns, gate, reader, Point::ReadBegun);
        if !end_read(rt, turns) {
            return ended;
        }
        tell(turns, gate, reader, Point::ReadEnded);
    }
    reads
}
