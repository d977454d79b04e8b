// A day of the year, many days later.
ghost use Rattle.std.specs.Prelude.{◌≡◌};
ghost use Rattle.clock.specs.Times.{times};
ghost use Rattle.clock.specs.Parts.{next_month_day};
ghost use Rattle.clock.specs.Registers167.{dated};

use crate::month::YearDay;
use crate::month_day::MonthDay;

const YEAR: u64 = 365;

impl MonthDay {
    // The day `days` later, by its place in the year.
    pub(crate) fn later(self, days: u64) -> MonthDay
        ensures { dated result ≡ times days next_month_day (dated self) }
    {
        let day = YearDay {
            month: self.month,
            day: self.day,
            leap: false,
        };
        let place = day.place() as u64 + days % YEAR;
        let on = YearDay::at((place % YEAR) as u16, false);
        MonthDay {
            day: on.day,
            month: on.month,
        }
    }
}
