// The day and month that digits show.
ghost use Rattle.std.specs.Prelude.{◌≡◌, MatchOption};
ghost use Rattle.clock.specs.Start.{number, MonthDayShown};

use crate::digits::TwoDigits;
use crate::month::YearDay;
use crate::month_day::MonthDay;

pub(super) fn month_day_shown(day: TwoDigits, month: TwoDigits) -> Option<MonthDay>
    ensures { MatchOption result (MonthDayShown day month → ⊥) (λ d. (d.day ≡ number day) × (d.month ≡ number month) × MonthDayShown day month) }
{
    let on = YearDay::shown(day, month, false)?;
    Some(MonthDay {
        day: on.day,
        month: on.month,
    })
}
