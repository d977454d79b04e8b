// What the timer does at each event.
ghost use Rattle.std.specs.Prelude.{◌≡◌, ◌≤◌};
ghost use Rattle.mm58274c.specs.Timer.{Timed, delay, after};

use crate::bits::has_bit;
use crate::timer::{Event, Timer};

// The delays in tenths of a second that bits 2 to 0 of the interrupt register choose.
const DELAYS: [u16; 8] = [0, 1, 5, 10, 50, 100, 300, 600];

fn delay_of(register: u8) -> u16
    ensures { (result ≡ delay register) × (result ≤ 600) }
{
    DELAYS[(register & 7) as usize]
}

impl Timer {
    // The timer after an event under an interrupt register, and whether it came to its last step.
    pub(crate) fn on(self, event: Event, register: u8) -> (Timer, bool)
        requires { Timed register self }
        ensures after { result ≡ after register self event }
        ensures timed { Timed register result.0 }
    {
        let delay = delay_of(register);
        match (self, event) {
            (_, Event::Load) | (_, Event::Halt) => (Timer::Halted, false),
            (Timer::Halted, Event::Start) if delay == 0 => (Timer::Halted, false),
            (Timer::Halted, Event::Start) if has_bit(register, 3) => (Timer::Again(delay), false),
            (Timer::Halted, Event::Start) => (Timer::Once(delay), false),
            (counting, Event::Start) => (counting, false),
            (Timer::Halted, Event::Steps(_)) => (Timer::Halted, false),
            (Timer::Once(left), Event::Steps(n)) if n < left as u64 => (
                Timer::Once(left - n as u16),
                false,
            ),
            (Timer::Once(_), Event::Steps(_)) => (Timer::Halted, true),
            (Timer::Again(left), Event::Steps(n)) if n < left as u64 => (
                Timer::Again(left - n as u16),
                false,
            ),
            (Timer::Again(left), Event::Steps(n)) => {
                let over = (n - left as u64) % delay as u64;
                (Timer::Again(delay - over as u16), true)
            }
        }
    }
}
