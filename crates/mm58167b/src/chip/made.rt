// A chip as it is made.
ghost use Rattle.std.specs.Prelude.{◌≡◌};
ghost use Rattle.mm58167b.specs.Registers.{made};
ghost use Rattle.mm58167b.specs.View.{registers};

use crate::chip::Mm58167b;
use chips::age::Age;
use chips::calls::Calls;
use chips::digits::Digits;
use clock::mm58167b::Running;
use clock::month_day::MonthDay;
use clock::ticking::Ticking;

impl Mm58167b {
    // 00:00:00.000 on 1 January, day of week 1; divider, RAM and status 0.
    pub fn new() -> Mm58167b
        ensures { registers result ≡ made }
    {
        let counters = Running {
            milliseconds: 0,
            hundredths: 0,
            seconds: 0,
            minutes: 0,
            hours: 0,
            weekday: 1,
            date: MonthDay { day: 1, month: 1 },
        };
        Mm58167b {
            clock: Ticking::started(counters),
            ram: Digits { columns: [0; 14] },
            status: false,
            seen: false,
            armed: false,
            age: Age { cycles: 0 },
            calls: Calls { made: 0 },
        }
    }
}
