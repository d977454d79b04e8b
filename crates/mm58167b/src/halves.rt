// Two digits a byte, the tens in the high half. A byte may lack a half.
ghost use Rattle.std.specs.Prelude.{◌≡◌, ◌≤◌};
ghost use Rattle.mm58167b.specs.Layout.{halves, half, with_half, byte, with_byte, Within};

use crate::register::Place;
use chips::digits::Digits;

// The columns of the low and of the high half.
#[derive(Clone, Copy)]
pub(crate) struct Halves {
    pub low: Option<usize>,
    pub high: Option<usize>,
}

// Bytes 0 to 7: milliseconds have the high half only, day of week the low half only.
fn halves_of(place: Place) -> Halves
    ensures low { result.low ≡ (halves place.index).0 }
    ensures high { result.high ≡ (halves place.index).1 }
    ensures within { Within result.low × Within result.high }
{
    let (low, high) = match place.index {
        0 => (None, Some(0)),
        1 => (Some(1), Some(2)),
        2 => (Some(3), Some(4)),
        3 => (Some(5), Some(6)),
        4 => (Some(7), Some(8)),
        5 => (Some(9), None),
        6 => (Some(10), Some(11)),
        _ => (Some(12), Some(13)),
    };
    Halves { low, high }
}

fn digit_at(digits: &Digits<14>, column: Option<usize>) -> u8
    requires { Within column }
    ensures value { result ≡ half column digits.now.columns }
    ensures small { result ≤ 15 }
{
    match column {
        Some(column) => digits.columns[column],
        None => 0,
    }
}

fn put(digits: Digits<14>, column: Option<usize>, digit: u8) -> Digits<14>
    requires { digit ≤ 15 }
    ensures { result.columns ≡ with_half column digit digits.columns }
{
    match column {
        Some(column) => digits.with(column, digit),
        None => digits,
    }
}

// A byte of fourteen digits.
pub(crate) fn byte_at(digits: &Digits<14>, place: Place) -> u8
    ensures { result ≡ byte digits.now.columns place.index }
{
    let halves = halves_of(place);
    let high = digit_at(digits, halves.high);
    let low = digit_at(digits, halves.low);
    (high << 4) | low
}

// Fourteen digits with a byte written.
pub(crate) fn with_byte(digits: Digits<14>, place: Place, value: u8) -> Digits<14>
    ensures { result.columns ≡ with_byte digits.columns place.index value }
{
    let halves = halves_of(place);
    let low = put(digits, halves.low, value & 15);
    put(low, halves.high, value >> 4)
}
