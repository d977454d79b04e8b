// A day by its digits.
ghost use Rattle.std.specs.Prelude.{◌≡◌, MatchOption};
ghost use Rattle.clock.specs.Start.{number, DayShown};

use crate::digits::TwoDigits;
use crate::month::{YearDay, days_of};

impl YearDay {
    // The day that its digits show in a year.
    pub(crate) fn shown(day: TwoDigits, month: TwoDigits, leap: bool) -> Option<YearDay>
        ensures { MatchOption result (DayShown day month leap → ⊥) (λ d. (d.day ≡ number day) × (d.month ≡ number month) × (d.leap ≡ leap) × DayShown day month leap) }
    {
        let month = month.between(1, 12)?;
        let day = day.between(1, days_of(month, leap))?;
        Some(YearDay { month, day, leap })
    }
}
