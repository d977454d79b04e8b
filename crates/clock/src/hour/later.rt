// The hour of the day by the hours since midnight.
ghost use Rattle.std.specs.Prelude.{◌≡◌, ◌<◌};
ghost use Rattle.clock.specs.Hours.{mode24};
ghost use Rattle.clock.specs.Modes.{is24};
ghost use Rattle.clock.specs.Registers274.{hour};

use crate::hour::{Hour, HourOfDay};
use crate::mode::HourMode;

impl HourOfDay {
    pub(crate) fn since_midnight(self) -> u8
        ensures { (result ≡ hour self) × (result < 24) }
    {
        match self.hour {
            Hour::TwentyFour(hours) => hours,
            Hour::Am(hours) => hours % 12,
            Hour::Pm(hours) => hours % 12 + 12,
        }
    }

    // The hour of the day that is so many hours after midnight.
    pub(crate) fn at(mode: HourMode, since: u8) -> HourOfDay
        requires { since < 24 }
        ensures { (hour result ≡ since) × (mode24 result.hour ≡ is24 mode) }
    {
        let hour = match mode {
            HourMode::TwentyFour => Hour::TwentyFour(since),
            HourMode::Twelve if since < 12 => Hour::Am((since + 11) % 12 + 1),
            HourMode::Twelve => Hour::Pm((since + 11) % 12 + 1),
        };
        HourOfDay { hour }
    }
}
