// The counters of an MM58167B. They hold a lawful face at every moment: the ghost fields say so.
ghost use Rattle.std.specs.Prelude.{◌≤◌};

use crate::month_day::MonthDay;

mod calendar;
mod start;

#[derive(Clone, Copy)]
pub struct Running {
    pub milliseconds: u8,
    pub hundredths: u8,
    pub seconds: u8,
    pub minutes: u8,
    pub hours: u8,
    pub weekday: u8,
    pub date: MonthDay,
    ghost part: { (milliseconds ≤ 9) × (hundredths ≤ 99) },
    ghost time: { (seconds ≤ 59) × (minutes ≤ 59) × (hours ≤ 23) },
    ghost week: { (1 ≤ weekday) × (weekday ≤ 7) },
}
