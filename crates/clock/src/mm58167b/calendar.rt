// The MM58167B's calendar: it counts milliseconds.
ghost use Rattle.std.specs.Prelude.{◌≡◌};
ghost use Rattle.clock.specs.Divider.{milliseconds, counted, period};
ghost use Rattle.clock.specs.Mm58167b.{Lawful, step as step_167};
ghost use Rattle.clock.specs.Numbers.{numbers as numbers_of};
ghost use Rattle.clock.specs.Registers167.{face as face_167};
ghost use Rattle.clock.specs.Widths.{columns_167, four_bits_167};
ghost use Rattle.std.proofs.Common.{rules};

use crate::calendar::Calendar;
use crate::counter::turned;
use crate::digits::TwoDigits;
use crate::divider::Divider;
use crate::mm58167b::Running;
use crate::mm58167b::start::month_day_shown;

impl Calendar<14> for Running {
    ghost lawful = { Lawful };

    ghost step = { step_167 };

    ghost whole_round = { 220752000000 };

    ghost numbers = { milliseconds };

    ghost shown = { face_167 };

    ghost divides = { record { some_pass = Prim.search rules; some_count = Prim.search rules } };

    ghost columns = { columns_167 };

    ghost four_bits = { four_bits_167 };

    fn divider() -> Divider
        ensures numbers { numbers_of result ≡ milliseconds }
        ensures period { period (numbers_of result) ≡ 4096 }
        ensures steps { counted (numbers_of result) 4096 ≡ 125 }
    {
        Divider {
            m: 128,
            d: 3,
            k: 32,
            period: 4096,
        }
    }

    fn from_face(digits: &[u8]) -> Option<Running> {
        if digits.len() != 14 {
            return None;
        }
        let milliseconds = TwoDigits(digits[0], 0).between(0, 9)?;
        let hundredths = TwoDigits(digits[1], digits[2]).between(0, 99)?;
        let seconds = TwoDigits(digits[3], digits[4]).between(0, 59)?;
        let minutes = TwoDigits(digits[5], digits[6]).between(0, 59)?;
        let hours = TwoDigits(digits[7], digits[8]).between(0, 23)?;
        let weekday = TwoDigits(digits[9], 0).between(1, 7)?;
        let day = TwoDigits(digits[10], digits[11]);
        let date = month_day_shown(day, TwoDigits(digits[12], digits[13]))?;
        Some(Running {
            milliseconds,
            hundredths,
            seconds,
            minutes,
            hours,
            weekday,
            date,
        })
    }

    fn face(&self) -> [u8; 14] {
        [
            self.milliseconds,
            self.hundredths % 10,
            self.hundredths / 10,
            self.seconds % 10,
            self.seconds / 10,
            self.minutes % 10,
            self.minutes / 10,
            self.hours % 10,
            self.hours / 10,
            self.weekday,
            self.date.day % 10,
            self.date.day / 10,
            self.date.month % 10,
            self.date.month / 10,
        ]
    }

    fn advance(&mut self, steps: u64) {
        let (milliseconds, carry) = turned(self.milliseconds, 10, steps);
        let (hundredths, carry) = turned(self.hundredths, 100, carry);
        let (seconds, carry) = turned(self.seconds, 60, carry);
        let (minutes, carry) = turned(self.minutes, 60, carry);
        let (hours, days) = turned(self.hours, 24, carry);
        let (weekday, _) = turned(self.weekday - 1, 7, days);
        *self = Running {
            milliseconds,
            hundredths,
            seconds,
            minutes,
            hours,
            weekday: weekday + 1,
            date: self.date.later(days),
        };
    }

    // Seven years of 365 days.
    fn round() -> u64 {
        220_752_000_000
    }
}
