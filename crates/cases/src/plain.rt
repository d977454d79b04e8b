// Both chips' counters written a second time, as docs/COUNTING.md tells them, to be counted one step at a time.

// What a chip shows in N columns, and its single steps.
pub(crate) trait Plain<const N: usize>: Copy {
    fn step(&mut self);

    fn face(&self) -> [u8; N];
}

// A counter that goes from its last value to its first.
#[derive(Clone, Copy)]
struct Counter {
    value: u8,
    first: u8,
    last: u8,
}

impl Counter {
    fn new(first: u8, value: u8, last: u8) -> Counter {
        Counter { value, first, last }
    }

    fn units(self) -> u8 {
        self.value % 10
    }

    fn tens(self) -> u8 {
        self.value / 10
    }

    // One on, and whether it rolled over.
    fn count(&mut self) -> bool {
        if self.value < self.last {
            self.value += 1;
            return false;
        }
        self.value = self.first;
        true
    }
}

// Each counter moves when all below it have rolled over; whether the last one has.
fn count_all(counters: &mut [Counter]) -> bool {
    counters.iter_mut().all(Counter::count)
}

#[derive(Clone, Copy)]
pub(crate) struct Date {
    pub day: u8,
    pub month: u8,
}

// The days of both chips.
#[derive(Clone, Copy)]
struct Calendar {
    weekday: Counter,
    day: u8,
    month: Counter,
}

impl Calendar {
    // On the last day of the week.
    fn on(date: Date) -> Calendar {
        Calendar {
            weekday: Counter::new(1, 7, 7),
            day: date.day,
            month: Counter::new(1, date.month, 12),
        }
    }

    // A day on, where February has so many days, and whether that is a new year.
    fn next_day(&mut self, february: u8) -> bool {
        self.weekday.count();
        let last = match self.month.value {
            2 => february,
            4 | 6 | 9 | 11 => 30,
            _ => 31,
        };
        if self.day < last {
            self.day += 1;
            return false;
        }
        self.day = 1;
        self.month.count()
    }
}

// The years since the last leap year, and the last two digits of the year.
#[derive(Clone, Copy)]
pub(crate) struct Year {
    pub leap: u8,
    pub year: u8,
}

// An hour as its mode shows it.
#[derive(Clone, Copy)]
pub(crate) enum Hour {
    Am(u8),
    Pm(u8),
    Of24(u8),
}

impl Hour {
    fn value(self) -> u8 {
        match self {
            Hour::Am(hour) | Hour::Pm(hour) | Hour::Of24(hour) => hour,
        }
    }

    fn next(self) -> Hour {
        match self {
            Hour::Am(11) => Hour::Pm(12),
            Hour::Pm(11) => Hour::Am(12),
            Hour::Am(hour) if hour < 12 => Hour::Am(hour + 1),
            Hour::Pm(hour) if hour < 12 => Hour::Pm(hour + 1),
            Hour::Of24(hour) if hour < 23 => Hour::Of24(hour + 1),
            Hour::Am(_) => Hour::Am(1),
            Hour::Pm(_) => Hour::Pm(1),
            Hour::Of24(_) => Hour::Of24(0),
        }
    }

    fn is_midnight(self) -> bool {
        matches!(self, Hour::Am(12) | Hour::Of24(0))
    }

    // The lowest two bits of the setting register.
    fn setting(self) -> u8 {
        match self {
            Hour::Am(_) => 0,
            Hour::Of24(_) => 1,
            Hour::Pm(_) => 2,
        }
    }
}

// An MM58274C: tenths, seconds and minutes, then the hour, then the calendar with its leap years.
#[derive(Clone, Copy)]
pub(crate) struct Mm58274c {
    low: [Counter; 3],
    hour: Hour,
    calendar: Calendar,
    leap: Counter,
    year: Counter,
}

impl Mm58274c {
    // A tenth before the hour ends.
    pub(crate) fn at_the_end_of(hour: Hour, date: Date, year: Year) -> Mm58274c {
        Mm58274c {
            low: [
                Counter::new(0, 9, 9),
                Counter::new(0, 59, 59),
                Counter::new(0, 59, 59),
            ],
            hour,
            calendar: Calendar::on(date),
            leap: Counter::new(0, year.leap, 3),
            year: Counter::new(0, year.year, 99),
        }
    }

    // An hour on, and whether that is midnight.
    fn next_hour(&mut self) -> bool {
        self.hour = self.hour.next();
        self.hour.is_midnight()
    }
}

impl Plain<15> for Mm58274c {
    fn step(&mut self) {
        if count_all(&mut self.low) && self.next_hour() {
            let february = if self.leap.value == 0 { 29 } else { 28 };
            if self.calendar.next_day(february) {
                self.leap.count();
                self.year.count();
            }
        }
    }

    fn face(&self) -> [u8; 15] {
        let [tenths, seconds, minutes] = self.low;
        let hour = self.hour.value();
        let calendar = self.calendar;
        [
            tenths.value,
            seconds.units(),
            seconds.tens(),
            minutes.units(),
            minutes.tens(),
            hour % 10,
            hour / 10,
            calendar.day % 10,
            calendar.day / 10,
            calendar.month.units(),
            calendar.month.tens(),
            self.year.units(),
            self.year.tens(),
            calendar.weekday.value,
            (self.leap.value << 2) | self.hour.setting(),
        ]
    }
}

// An MM58167B: milliseconds, hundredths, seconds, minutes and hours, then the calendar, with no leap years.
#[derive(Clone, Copy)]
pub(crate) struct Mm58167b {
    low: [Counter; 5],
    calendar: Calendar,
}

impl Mm58167b {
    // A millisecond before midnight.
    pub(crate) fn at_the_end_of(date: Date) -> Mm58167b {
        Mm58167b {
            low: [
                Counter::new(0, 9, 9),
                Counter::new(0, 99, 99),
                Counter::new(0, 59, 59),
                Counter::new(0, 59, 59),
                Counter::new(0, 23, 23),
            ],
            calendar: Calendar::on(date),
        }
    }
}

impl Plain<14> for Mm58167b {
    fn step(&mut self) {
        if count_all(&mut self.low) {
            self.calendar.next_day(28);
        }
    }

    fn face(&self) -> [u8; 14] {
        let [milliseconds, hundredths, seconds, minutes, hours] = self.low;
        let calendar = self.calendar;
        [
            milliseconds.value,
            hundredths.units(),
            hundredths.tens(),
            seconds.units(),
            seconds.tens(),
            minutes.units(),
            minutes.tens(),
            hours.units(),
            hours.tens(),
            calendar.weekday.value,
            calendar.day % 10,
            calendar.day / 10,
            calendar.month.units(),
            calendar.month.tens(),
        ]
    }
}
