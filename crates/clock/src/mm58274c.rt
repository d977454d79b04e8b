// The counters of a running MM58274C. They hold a lawful face at every moment: the ghost fields say so.
ghost use Rattle.std.specs.Prelude.{◌≤◌};

use crate::date::Date;
use crate::hour::HourOfDay;

mod calendar;
mod start;

#[derive(Clone, Copy)]
pub struct Running {
    pub tenths: u8,
    pub seconds: u8,
    pub minutes: u8,
    pub hour: HourOfDay,
    pub weekday: u8,
    pub date: Date,
    ghost ranges: { (tenths ≤ 9) × (seconds ≤ 59) × (minutes ≤ 59) × (1 ≤ weekday) × (weekday ≤ 7) },
}
