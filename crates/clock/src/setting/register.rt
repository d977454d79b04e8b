// The setting register taken apart and put together.
ghost use Rattle.std.specs.Prelude.{◌≡◌, ◌/◌, ◌%◌, ◌==◌};
ghost use Rattle.clock.specs.Modes.{is24};

use crate::mode::HourMode;
use crate::setting::Setting;

impl From<u8> for Setting {
    ghost from_gives = { λ register s. (s.leap ≡ register / 4) × (s.pm ≡ (register / 2 % 2 == 1)) × (is24 s.mode ≡ (register % 2 == 1)) };

    fn from(register: u8) -> Setting {
        Setting {
            leap: register >> 2,
            pm: (register >> 1) & 1 == 1,
            mode: HourMode::from(register & 1 == 1),
        }
    }
}

// A leap count is cut to its two bits.
impl From<Setting> for u8 {
    ghost use Rattle.clock.specs.Mm58274c.{setting};

    ghost from_gives = { λ s register. register ≡ setting (s.leap % 4) s.pm (is24 s.mode) };

    fn from(setting: Setting) -> u8 {
        let pm = u8::from(setting.pm);
        let mode = u8::from(bool::from(setting.mode));
        ((setting.leap & 3) << 2) | (pm << 1) | mode
    }
}
