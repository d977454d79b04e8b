// The MM58167B, by whole bus accesses: counters, RAM and rollover status.
#![tactic(auto)]

pub mod chip;
mod halves;
mod register;
