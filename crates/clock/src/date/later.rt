// A date, many days later.
ghost use Rattle.std.specs.Prelude.{◌≡◌, ◌+◌, ◌-◌, ◌*◌, ◌≤◌, min};
ghost use Rattle.clock.specs.Times.{times};
ghost use Rattle.clock.specs.Parts.{next_date};
ghost use Rattle.clock.specs.Registers274.{dated};

use crate::date::Date;
use crate::month::YearDay;

// a leap year and the three years after it
const FOUR_YEARS: u64 = 1461;
// after which day, month, leap count and year come back
const HUNDRED_YEARS: u64 = 36525;

// The days from the last leap year's first to that of a year with this leap count.
fn since_leap(leap: u64) -> u64
    requires { leap ≤ 3 }
    ensures { result ≡ 365 * leap + min leap 1 }
{
    365 * leap + leap.min(1)
}

impl Date {
    // The date `days` later, by its place in the four years that the last leap year began.
    pub(crate) fn later(self, days: u64) -> Date
        ensures { dated result ≡ times days next_date (dated self) }
    {
        let day = YearDay {
            month: self.month,
            day: self.day,
            leap: self.leap == 0,
        };
        let start = since_leap(self.leap as u64) + day.place() as u64;
        let place = start + days % HUNDRED_YEARS;
        let left = place % FOUR_YEARS;
        let leap = left.saturating_sub(1) / 365;
        let on = YearDay::at((left - since_leap(leap)) as u16, leap == 0);
        let leap_year = (self.year + 100 - self.leap) as u64;
        Date {
            day: on.day,
            month: on.month,
            leap: leap as u8,
            year: ((leap_year + 4 * (place / FOUR_YEARS) + leap) % 100) as u8,
        }
    }
}
