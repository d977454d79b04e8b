// What the clock shows, as an engineer writes it.
use clock::date::Date;
use clock::hour::Hour;
use clock::mm58274c::Running;
use std::fmt;
use words::month::Month;

// A face, one hexadecimal digit a column, lowest first.
#[derive(Clone, Copy)]
pub struct Face(pub [u8; 15]);

impl fmt::Display for Face {
    fn fmt<W: fmt::Write>(&self, f: &mut fmt::Formatter<W>) -> fmt::Result {
        for digit in self.0 {
            write!(f, "{digit:x}")?;
        }
        Ok(())
    }
}

// A date in words.
#[derive(Clone, Copy)]
pub struct Day(pub Date);

impl fmt::Display for Day {
    fn fmt<W: fmt::Write>(&self, f: &mut fmt::Formatter<W>) -> fmt::Result {
        let date = self.0;
        write!(f, "{} {} {:02}", date.day, Month(date.month), date.year)
    }
}

// The time of day, with AM or PM in 12-hour mode.
#[derive(Clone, Copy)]
pub struct TimeOfDay(pub Running);

impl fmt::Display for TimeOfDay {
    fn fmt<W: fmt::Write>(&self, f: &mut fmt::Formatter<W>) -> fmt::Result {
        let Running {
            tenths,
            seconds,
            minutes,
            hour,
            ..
        } = self.0;
        let (hours, half) = match hour.hour {
            Hour::Am(hours) => (hours, " AM"),
            Hour::Pm(hours) => (hours, " PM"),
            Hour::TwentyFour(hours) => (hours, ""),
        };
        write!(f, "{hours:02}:{minutes:02}:{seconds:02}.{tenths}{half}")
    }
}
