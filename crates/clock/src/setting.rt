// The MM58274C's setting register: bits 3 and 2 the leap count, bit 1 PM, bit 0 24-hour mode.

use crate::mode::HourMode;

mod register;

#[derive(Clone, Copy)]
pub(crate) struct Setting {
    pub leap: u8,
    pub pm: bool,
    pub mode: HourMode,
}
