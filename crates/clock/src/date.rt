// A date with its leap count.
ghost use Rattle.std.specs.Prelude.{◌≤◌, ◌==◌};
ghost use Rattle.clock.specs.Counter.{days_of};

mod later;

#[derive(Clone, Copy)]
pub struct Date {
    pub day: u8,
    pub month: u8,
    // years since the last leap year
    pub leap: u8,
    pub year: u8,
    ghost months: { (1 ≤ month) × (month ≤ 12) },
    ghost days: { (1 ≤ day) × (day ≤ days_of month (leap == 0)) },
    ghost years: { (leap ≤ 3) × (year ≤ 99) },
}
