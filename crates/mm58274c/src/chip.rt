// An MM58274C.

use crate::counters::Counters;
use crate::flags::Flags;
use crate::interrupt::Interrupt;
use chips::age::Age;
use chips::calls::Calls;

mod made;
mod read;
mod rules;
mod write;

#[derive(Clone, Copy)]
pub struct Mm58274c {
    counters: Counters,
    // address 15 is the interrupt register, and not the setting register
    select: bool,
    interrupt: Interrupt,
    flags: Flags,
    armed: bool,
    age: Age,
    calls: Calls,
}
