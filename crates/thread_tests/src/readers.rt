// A reader of scripted answers, and a gate that counts.
ghost use Rattle.std.specs.Prelude.{◌≡◌, false};
ghost use Rattle.reader_threads.specs.Tallies.{Tally};

use reader_threads::{Begun, Gate, OpenGate, Point, ReadTurns, Stepped, run_reader};
use std::sync::atomic::AtomicU32;
use std::sync::atomic::Ordering::SeqCst;
use std::test::*;

// Each third begin opens a read, and each fourth step ends it. The call of a number is answered by Stop.
#[derive(Drop)]
struct Script {
    is_open: bool,
    begun: u32,
    ended: u32,
    is_stopped: bool,
    calls: u32,
    stop: u32,
}

impl Script {
    // Whether the next call is the one that stops.
    fn stops(&mut self) -> bool
        ensures { self.new ≡ record self.old { calls = self.new.calls } }
    {
        self.calls = self.calls.saturating_add(1);
        self.calls == self.stop
    }
}

impl ReadTurns for Script {
    ghost tally = { λ s. record { is_open = s.is_open; begun = s.begun; ended = s.ended; is_stopped = s.is_stopped } };

    ghost has_turn = { λ s. false };

    fn begin(&mut self) -> Begun {
        if self.stops() || self.begun == u32::MAX {
            self.is_stopped = true;
            return Begun::Stop;
        }
        if self.calls % 3 != 0 {
            return Begun::NotYet;
        }
        self.is_open = true;
        self.begun += 1;
        Begun::Yes
    }

    fn step(&mut self) -> Stepped {
        if self.stops() || self.ended == u32::MAX {
            self.is_open = false;
            self.is_stopped = true;
            return Stepped::Stop;
        }
        if self.calls % 4 != 0 {
            return Stepped::More;
        }
        self.is_open = false;
        self.ended += 1;
        Stepped::Ended
    }
}

// How often it was told of each point, times the actor's number.
#[derive(Drop)]
struct Counts {
    begun: AtomicU32,
    ended: AtomicU32,
}

impl Gate for Counts {
    fn reached(&self, actor: u32, point: Point) {
        match point {
            Point::ReadBegun => self.begun.fetch_add(actor, SeqCst),
            Point::ReadEnded => self.ended.fetch_add(actor, SeqCst),
            _ => 0,
        };
    }
}

#[test]
fn reads_are_made_until_stop(rt: HostRuntime) -> Result<(), Fail> {
    // The number of the call that stops; reads begun and ended, and the calls made.
    for (stop, begun, ended, calls) in [
        (0, 5, 5, 20),
        (1, 0, 0, 1),
        (3, 0, 0, 3),
        (4, 1, 0, 4),
        (12, 3, 2, 12),
        (20, 5, 4, 20),
        (21, 5, 5, 20),
    ] {
        let mut script = Script {
            is_open: false,
            begun: 0,
            ended: 0,
            is_stopped: false,
            calls: 0,
            stop,
        };
        let counts = Counts {
            begun: AtomicU32::new(0),
            ended: AtomicU32::new(0),
        };
        assert_eq!(rt;
            run_reader(&rt, &mut script, &counts, 7, 5),
            ended,
            "stop {stop}"
        );
        assert_eq!(rt;
            (script.begun, script.ended, script.calls),
            (begun, ended, calls),
            "stop {stop}"
        );
        assert_eq!(rt;
            (counts.begun.load(SeqCst), counts.ended.load(SeqCst)),
            (7 * begun, 7 * ended),
            "stop {stop}"
        );
    }
    Ok(())
}

#[test]
fn open_gate_lets_a_reader_pass(rt: HostRuntime) -> Result<(), Fail> {
    let mut script = Script {
        is_open: false,
        begun: 0,
        ended: 0,
        is_stopped: false,
        calls: 0,
        stop: 0,
    };
    assert_eq!(rt; run_reader(&rt, &mut script, &OpenGate, 1, 0), 0);
    assert_eq!(rt; run_reader(&rt, &mut script, &OpenGate, 1, 3), 3);
    Ok(())
}
