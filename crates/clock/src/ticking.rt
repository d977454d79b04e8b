// A running clock.
ghost use Rattle.std.specs.Prelude.{◌≡◌, ◌+◌, ◌%◌, ◌<◌};
ghost use Rattle.clock.specs.Divider.{period, stepped};
ghost use Rattle.clock.specs.Times.{times};

use crate::calendar::Calendar;
use std::alloc::AllocError;

// Counters, and the cycles that their divider holds.
#[derive(Copy)]
pub struct Ticking<C: Calendar<N>, const N: usize> {
    pub counters: C,
    pub held: u64,
    ghost below: { held < period C.numbers },
}

impl<C: Calendar<N>, const N: usize> Clone for Ticking<C, N> {
    ghost use Rattle.std.specs.Prelude.{◌≡◌, ⊤};

    ghost is_clone = { λ x copy. copy ≡ x };

    ghost is_infallible = { λ _. ⊤ };

    fn clone(&self) -> Result<Self, AllocError> {
        Ok(*self)
    }
}

impl<C: Calendar<N>, const N: usize> Ticking<C, N> {
    // Counters that have just been started, with a zeroed divider.
    pub fn started(counters: C) -> Ticking<C, N>
        ensures counters { result.counters ≡ counters }
        ensures held { result.held ≡ 0 }
    {
        Ticking { counters, held: 0 }
    }

    // Waits, and answers the steps counted.
    pub fn wait(&mut self, cycles: u64) -> u64
        ensures steps { result ≡ stepped C.numbers self.old.held cycles }
        ensures held { self.new.held ≡ (self.old.held + cycles) % period C.numbers }
        ensures face { C.shown self.new.counters ≡ times result C.step (C.shown self.old.counters) }
    {
        let waited = C::divider().wait(self.held, cycles);
        self.counters.advance(waited.steps);
        self.held = waited.held;
        waited.steps
    }
}
