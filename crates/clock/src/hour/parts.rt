// The hour as the registers keep it.
ghost use Rattle.std.specs.Prelude.{◌≡◌};
ghost use Rattle.clock.specs.Hours.{hours, is_pm, mode24};
ghost use Rattle.clock.specs.Modes.{is24};

use crate::hour::{Hour, HourOfDay};
use crate::mode::HourMode;

impl HourOfDay {
    pub fn hours(self) -> u8
        ensures { result ≡ hours self.hour }
    {
        match self.hour {
            Hour::Am(hours) | Hour::Pm(hours) | Hour::TwentyFour(hours) => hours,
        }
    }

    pub fn is_pm(self) -> bool
        ensures { result ≡ is_pm self.hour }
    {
        matches!(self.hour, Hour::Pm(_))
    }

    pub fn mode(self) -> HourMode
        ensures { is24 result ≡ mode24 self.hour }
    {
        match self.hour {
            Hour::Am(_) | Hour::Pm(_) => HourMode::Twelve,
            Hour::TwentyFour(_) => HourMode::TwentyFour,
        }
    }
}
