// The bit by which a register tells the hour mode: 1 is 24-hour mode.
ghost use Rattle.std.specs.Prelude.{◌≡◌};

use crate::mode::HourMode;

impl From<bool> for HourMode {
    ghost use Rattle.clock.specs.Modes.{is24};

    ghost from_gives = { λ bit mode. is24 mode ≡ bit };

    fn from(bit: bool) -> HourMode {
        if bit {
            HourMode::TwentyFour
        } else {
            HourMode::Twelve
        }
    }
}

impl From<HourMode> for bool {
    ghost use Rattle.clock.specs.Modes.{is24};

    ghost from_gives = { λ mode bit. bit ≡ is24 mode };

    fn from(mode: HourMode) -> bool {
        match mode {
            HourMode::Twelve => false,
            HourMode::TwentyFour => true,
        }
    }
}
