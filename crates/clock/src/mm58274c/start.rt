// The hour and the date that digits show.
ghost use Rattle.std.specs.Prelude.{◌≡◌, MatchOption};
ghost use Rattle.clock.specs.Hours.{hours, is_pm, mode24};
ghost use Rattle.clock.specs.Modes.{is24};
ghost use Rattle.clock.specs.Start.{number, HourShown, DateShown};

use crate::date::Date;
use crate::digits::TwoDigits;
use crate::hour::{Hour, HourOfDay};
use crate::mode::HourMode;
use crate::month::YearDay;

// The hour that its digits show under a mode.
pub(super) fn hour_shown(digits: TwoDigits, pm: bool, mode: HourMode) -> Option<HourOfDay>
    ensures { MatchOption result (HourShown digits pm (is24 mode) → ⊥) (λ h. (hours h.hour ≡ number digits) × (is_pm h.hour ≡ pm) × (mode24 h.hour ≡ is24 mode) × HourShown digits pm (is24 mode)) }
{
    let hour = match (mode, pm) {
        (HourMode::TwentyFour, true) => return None,
        (HourMode::TwentyFour, false) => Hour::TwentyFour(digits.between(0, 23)?),
        (HourMode::Twelve, true) => Hour::Pm(digits.between(1, 12)?),
        (HourMode::Twelve, false) => Hour::Am(digits.between(1, 12)?),
    };
    Some(HourOfDay { hour })
}

// The date that its digits show with a leap count.
pub(super) fn date_shown(
    day: TwoDigits,
    month: TwoDigits,
    year: TwoDigits,
    leap: u8,
) -> Option<Date>
    ensures { MatchOption result (DateShown day month year leap → ⊥) (λ d. (d.day ≡ number day) × (d.month ≡ number month) × (d.year ≡ number year) × (d.leap ≡ leap) × DateShown day month year leap) }
{
    let on = YearDay::shown(day, month, leap == 0)?;
    let year = year.between(0, 99)?;
    if leap > 3 {
        return None;
    }
    Some(Date {
        day: on.day,
        month: on.month,
        leap,
        year,
    })
}
