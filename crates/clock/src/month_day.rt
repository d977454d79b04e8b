// A day of a year that is never a leap year.
ghost use Rattle.std.specs.Prelude.{◌≤◌, false};
ghost use Rattle.clock.specs.Counter.{days_of};

mod later;

#[derive(Clone, Copy)]
pub struct MonthDay {
    pub day: u8,
    pub month: u8,
    ghost months: { (1 ≤ month) × (month ≤ 12) },
    ghost days: { (1 ≤ day) × (day ≤ days_of month false) },
}
