// What a write makes of the digits.
ghost use Rattle.std.specs.Prelude.{◌≡◌};
ghost use Rattle.mm58274c.specs.Registers.{setting_written, digit_written};

use crate::bits::{active_part, has_bit, stored};
use crate::nibble::Nibble;
use crate::register::Column;
use chips::digits::Digits;
use clock::mode::HourMode;

// The columns of tens of hours and of the setting register.
const TENS_OF_HOURS: usize = 6;

const SETTING: usize = 14;

pub(crate) fn with_setting(digits: Digits<15>, setting: Nibble) -> Digits<15>
    ensures { result.columns ≡ setting_written digits.columns setting.value }
{
    let mode = HourMode::from(has_bit(setting.value, 0));
    let tens = active_part(digits.columns[TENS_OF_HOURS], TENS_OF_HOURS, mode);
    digits
        .with(SETTING, stored(setting).value)
        .with(TENS_OF_HOURS, tens)
}

pub(crate) fn with_digit(digits: Digits<15>, column: Column, digit: Nibble) -> Digits<15>
    ensures { result.columns ≡ digit_written digits.columns column.index digit.value }
{
    let mode = HourMode::from(has_bit(digits.columns[SETTING], 0));
    digits.with(column.index, active_part(digit.value, column.index, mode))
}
