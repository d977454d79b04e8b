// The place of a day in its year, from 0.
ghost use Rattle.std.specs.Prelude.{◌≡◌, ◌<◌};
ghost use Rattle.clock.specs.Parts.{day_of_year, year_days};

use crate::month::{YearDay, days_of};

impl YearDay {
    pub(crate) fn place(self) -> u16
        ensures { (result ≡ day_of_year self.leap self.month self.day) × (result < year_days self.leap) }
    {
        let mut days: u16 = 0;
        for past in 1..self.month {
            days += days_of(past, self.leap) as u16;
        }
        days + (self.day - 1) as u16
    }

    // The day at a place of a year.
    pub(crate) fn at(place: u16, leap: bool) -> YearDay
        requires { place < year_days leap }
        ensures { (result.leap ≡ leap) × (day_of_year leap result.month result.day ≡ place) }
    {
        let mut left = place;
        for month in 1..12 {
            let days = days_of(month, leap) as u16;
            if left < days {
                return YearDay {
                    month,
                    day: left as u8 + 1,
                    leap,
                };
            }
            left -= days;
        }
        YearDay {
            month: 12,
            day: left as u8 + 1,
            leap,
        }
    }
}
