// The MM58274C, by whole bus accesses: registers, flags, timer and counters.
#![tactic(auto)]

mod bits;
pub mod chip;
mod control;
mod counters;
mod digits;
mod flags;
mod interrupt;
mod nibble;
mod register;
mod timer;
