// Registers taken apart by shifts and masks.
ghost use Rattle.std.specs.Prelude.{◌≡◌, ◌≤◌};
ghost use Rattle.clock.specs.Modes.{is24};
ghost use Rattle.mm58274c.specs.Bits.{bit, cut, active_bits, stored_setting};

use crate::nibble::Nibble;
use clock::mode::HourMode;

// Bit `place` of a register of four bits.
pub(crate) fn has_bit(register: u8, place: u8) -> bool
    requires { place ≤ 3 }
    ensures { result ≡ bit place register }
{
    (register >> place) & 1 == 1
}

// The low `bits` of a digit.
fn low_bits(digit: u8, bits: u8) -> u8
    requires { bits ≤ 4 }
    ensures { (result ≡ cut bits digit) × (result ≤ 15) }
{
    digit & ((1 << bits) - 1)
}

// How many bits of the digit in a column are active. Tens of hours has one less in 12-hour mode.
fn active(column: usize, mode: HourMode) -> u8
    requires { column ≤ 13 }
    ensures { (result ≡ active_bits (is24 mode) column) × (result ≤ 4) }
{
    match column {
        2 | 4 | 13 => 3,
        6 => {
            match mode {
                HourMode::Twelve => 1,
                HourMode::TwentyFour => 2,
            }
        }
        8 => 2,
        10 => 1,
        _ => 4,
    }
}

// The active bits of a digit in its column.
pub(crate) fn active_part(digit: u8, column: usize, mode: HourMode) -> u8
    requires { column ≤ 13 }
    ensures { (result ≡ cut (active_bits (is24 mode) column) digit) × (result ≤ 15) }
{
    low_bits(digit, active(column, mode))
}

// The setting register as it is stored: in 24-hour mode PM is 0.
pub(crate) fn stored(setting: Nibble) -> Nibble
    ensures { result.value ≡ stored_setting setting.value }
{
    if has_bit(setting.value, 0) {
        Nibble {
            value: ((setting.value >> 2) << 2) | 1,
        }
    } else {
        setting
    }
}
