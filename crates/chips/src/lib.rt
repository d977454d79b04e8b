// What every clock chip on the bench keeps, whichever kind it is: its refusals, what it may be asked, and the chip rules.
#![tactic(auto)]

pub mod age;
pub mod ask;
pub mod calls;
pub mod chip;
pub mod digits;
pub mod numbers;
pub mod refusal;
