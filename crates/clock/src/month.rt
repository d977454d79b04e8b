// The months of a year.
ghost use Rattle.std.specs.Prelude.{◌≡◌, ◌≤◌};
ghost use Rattle.clock.specs.Counter.{days_of};
ghost use Rattle.clock.specs.Parts.{Dated};

mod place;
mod shown;

pub(crate) fn days_of(month: u8, leap: bool) -> u8
    ensures { (result ≡ days_of month leap) × (result ≤ 31) }
{
    match month {
        2 => { if leap { 29 } else { 28 } }
        4 | 6 | 9 | 11 => 30,
        _ => 31,
    }
}

// A day of a year.
#[derive(Clone, Copy)]
pub(crate) struct YearDay {
    pub month: u8,
    pub day: u8,
    pub leap: bool,
    ghost dated: { Dated leap month day },
}
