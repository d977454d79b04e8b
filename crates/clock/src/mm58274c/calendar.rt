// The MM58274C's calendar: it counts tenths of a second.
ghost use Rattle.std.specs.Prelude.{◌≡◌};
ghost use Rattle.clock.specs.Divider.{tenths, counted, period};
ghost use Rattle.clock.specs.Mm58274c.{Lawful, step as step_274};
ghost use Rattle.clock.specs.Numbers.{numbers as numbers_of};
ghost use Rattle.clock.specs.Registers274.{face as face_274};
ghost use Rattle.clock.specs.Widths.{columns_274, four_bits_274};
ghost use Rattle.std.proofs.Common.{rules};

use crate::calendar::Calendar;
use crate::counter::turned;
use crate::digits::TwoDigits;
use crate::divider::Divider;
use crate::hour::HourOfDay;
use crate::mm58274c::Running;
use crate::mm58274c::start::{date_shown, hour_shown};
use crate::setting::Setting;

impl Calendar<15> for Running {
    ghost lawful = { Lawful };

    ghost step = { step_274 };

    ghost whole_round = { 220903200000 };

    ghost numbers = { tenths };

    ghost shown = { face_274 };

    ghost divides = { record { some_pass = Prim.search rules; some_count = Prim.search rules } };

    ghost columns = { columns_274 };

    ghost four_bits = { four_bits_274 };

    fn divider() -> Divider
        ensures numbers { numbers_of result ≡ tenths }
        ensures period { period (numbers_of result) ≡ 16384 }
        ensures steps { counted (numbers_of result) 16384 ≡ 5 }
    {
        Divider {
            m: 16,
            d: 1,
            k: 3072,
            period: 16384,
        }
    }

    fn from_face(digits: &[u8]) -> Option<Running> {
        if digits.len() != 15 {
            return None;
        }
        let setting = Setting::from(digits[14]);
        let seconds = TwoDigits(digits[1], digits[2]).between(0, 59)?;
        let minutes = TwoDigits(digits[3], digits[4]).between(0, 59)?;
        let hour = hour_shown(TwoDigits(digits[5], digits[6]), setting.pm, setting.mode)?;
        let day = TwoDigits(digits[7], digits[8]);
        let month = TwoDigits(digits[9], digits[10]);
        let date = date_shown(day, month, TwoDigits(digits[11], digits[12]), setting.leap)?;
        let tenths = TwoDigits(digits[0], 0).between(0, 9)?;
        let weekday = TwoDigits(digits[13], 0).between(1, 7)?;
        Some(Running {
            tenths,
            seconds,
            minutes,
            hour,
            weekday,
            date,
        })
    }

    fn face(&self) -> [u8; 15] {
        let setting = Setting {
            leap: self.date.leap,
            pm: self.hour.is_pm(),
            mode: self.hour.mode(),
        };
        [
            self.tenths,
            self.seconds % 10,
            self.seconds / 10,
            self.minutes % 10,
            self.minutes / 10,
            self.hour.hours() % 10,
            self.hour.hours() / 10,
            self.date.day % 10,
            self.date.day / 10,
            self.date.month % 10,
            self.date.month / 10,
            self.date.year % 10,
            self.date.year / 10,
            self.weekday,
            u8::from(setting),
        ]
    }

    fn advance(&mut self, steps: u64) {
        let (tenths, carry) = turned(self.tenths, 10, steps);
        let (seconds, carry) = turned(self.seconds, 60, carry);
        let (minutes, carry) = turned(self.minutes, 60, carry);
        let (hour, days) = turned(self.hour.since_midnight(), 24, carry);
        let (weekday, _) = turned(self.weekday - 1, 7, days);
        *self = Running {
            tenths,
            seconds,
            minutes,
            hour: HourOfDay::at(self.hour.mode(), hour),
            weekday: weekday + 1,
            date: self.date.later(days),
        };
    }

    // Seven hundred years.
    fn round() -> u64 {
        220_903_200_000
    }
}
