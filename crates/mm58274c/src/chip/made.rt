// A chip as it is made.
ghost use Rattle.std.specs.Prelude.{◌≡◌};
ghost use Rattle.mm58274c.specs.Registers.{made};
ghost use Rattle.mm58274c.specs.View.{registers};

use crate::chip::Mm58274c;
use crate::counters::Counters;
use crate::flags::Flags;
use crate::interrupt::Interrupt;
use crate::nibble::Nibble;
use crate::timer::Timer;
use chips::age::Age;
use chips::calls::Calls;

impl Mm58274c {
    // Stopped, every register 0, no flag.
    pub fn new() -> Mm58274c
        ensures { registers result ≡ made }
    {
        Mm58274c {
            counters: Counters::zero(),
            select: false,
            interrupt: Interrupt {
                register: Nibble { value: 0 },
                timer: Timer::Halted,
            },
            flags: Flags {
                changed: false,
                rang: false,
                kept: false,
            },
            armed: false,
            age: Age { cycles: 0 },
            calls: Calls { made: 0 },
        }
    }
}
